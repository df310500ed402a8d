// The texts that the program writes about itself.

/// What `--help` writes.
pub const USAGE: &str = "op2 JOB INPUT [MESH] [OPTION ..]

Jobs
  run            runs the OP2 program in the file INPUT over the mesh in the file MESH, and writes what it prints
  sample         as run, with a program of fluxes on a grid of INPUT times INPUT cells, which it makes itself; no MESH
  state          as run, but only the items before that of --at run, and then the state before it is written
  check          as run, but the program is planned and not run, and the sizes of the plan are written
  plan           as check, and the whole plan is written
  schedule       as check, and the schedule is written: the steps of the plan in their order, one a line
  convert        writes the mesh in the file INPUT again, in the version that --form names; no MESH
  translate      writes the source in the file INPUT with each loop call a call of its own stub, and behind it a table of
                 the stubs; no MESH and no option
  restore        the way back: each call of a stub in the file INPUT is written as a loop call; no MESH and no option

Words
  INPUT          the name of the source file; for sample a number from 1 to 200; for convert the name of the mesh file
  MESH           the name of the mesh file; for run, state, check, plan and schedule

Options of run, sample, state, check, plan and schedule
  --ranks N      how many ranks there are, from 1 to 64; 1 where it isn't given
  --parts RULE   who owns which element; block where it isn't given
                   block       each set in blocks of consecutive elements
                   bisect:DAT  cuts along the values of the dat DAT, and the other sets by their maps
                   grow:MAP    growth over the neighbours by the map MAP, and the other sets by their maps
  --partition F  in place of --parts: who owns which element, as the file F says
  --renumber MAP new numbers by Cuthill and McKee over the map MAP; none where it isn't given
  --block N      how many places a block has, from 1 to 65536; 256 where it isn't given
  --plan F       in place of --block: blocks and colours as in the plan of the file F; not for state and plan
  --schedule F   the steps in the order of the file F; in the standard order where it isn't given
  --seed N       in place of --schedule: the steps in an order drawn from N, from 0 to 2^64 - 1
  --workers N    how many threads run the elements, from 1 to 64; 1 where it isn't given
  --at K         for state, where it must be given: the item before which the run stops, from 0 to 4294967295
  --from F       for run and schedule: the items from that on which the state in the file F tells, with its values
  --chain        for run, sample and check: without a plan, with one exchange for each chain of loops; check writes how
                 many chains and messages there are; stands with --ranks, --parts, --partition and --dump alone
  --dump         for run and sample: where the run has no fault, what each rank holds at its end is written too

Options of convert
  --form FORM    the version of the mesh format, 1 or 2 (runs of equal values); 2 where it isn't given

Options that stand alone
  -h, --help     writes this text
  -V, --version  writes the version

Statuses
  0              all is well
  1              out of memory
  2              the words are none of these
  3              a file cannot be read
  4              the output cannot be written
  5              the source is refused
  6              the mesh is refused
  7              the ranks are refused: no dat or map has the name, or the partition isn't one of the mesh
  8              the schedule is refused: its file isn't one, or the plan doesn't accept its steps
  9              the run has a fault
  10             a size is beyond its limit
  12             the plan is refused: its file isn't one of the program
  13             the state is refused: the program has none at that item, or the file isn't one of the program
  14             the source is not translated, since a name is that of a stub, or not restored, since a stub isn't called
                 or a loop call is left
";

/// What `--version` writes.
pub const VERSION: &str = "op2 0.1.0\n";
