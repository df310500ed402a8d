// What words ask for.

ghost use Rattle.std.specs.Prelude.{◌≡◌};
ghost use Rattle.command_words.specs.Words.{group_of};
ghost use Rattle.command_words.specs.Values.{options_in};

use crate::limits::MAX_GROUP;
use crate::sides::Side;
use mesh_decl::text::Form;
use partition::distribute::Parts;

/// What is done with a plan.
#[derive(Clone, Copy, PartialEq, Eq, Debug)]
pub enum PlanJob {
    /// Its sizes are told.
    Check,
    /// Its text is written.
    ShowsPlan,
    /// A schedule of it is written: its steps, in the order that the options ask for.
    ShowsSchedule,
    /// The program runs on its ranks.
    RunsPlan,
}

/// By which rule the elements of a mesh are given to ranks.
#[derive(Clone, Copy, Debug)]
pub enum Rule<'a> {
    /// Each set by blocks.
    Block,
    /// The set of the first dat of this name by cuts along its values, and the other sets from it.
    Bisect(&'a [u8]),
    /// The set to which the first map of this name leads by growth over its neighbours, and the other sets from it.
    Grow(&'a [u8]),
}

impl<'a> Rule<'a> {
    ghost use Rattle.partition.specs.Parts.{parts_of, HasLines};
    ghost use Rattle.command_words.specs.Values.{rule_in};

    /// How the rule gives them.
    pub fn parts(&self) -> Parts<'a>
        ensures parts { parts_of result ≡ rule_in self.now }
        ensures lines { HasLines (parts_of result) }
    {
        match *self {
            Rule::Block => Parts::Block,
            Rule::Bisect(dat) => Parts::Bisect(dat),
            Rule::Grow(map) => Parts::Grow(map),
        }
    }
}

/// Who owns which element.
#[derive(Clone, Copy, Debug)]
pub enum Parting<'a> {
    /// By a rule.
    ByRule(Rule<'a>),
    /// As the file of this name says.
    ByFile(&'a str),
}

/// In which order the steps of a plan are taken.
#[derive(Clone, Copy, Debug)]
pub enum Schedule<'a> {
    /// In the standard order.
    Standard,
    /// In the order that is drawn by the seed, any number below 2 ^ 64.
    Drawn { seed: u64 },
    /// As the file of this name says.
    Written(&'a str),
}

/// The blocks and colours of a plan.
#[derive(Clone, Copy, Debug)]
pub enum Blocks<'a> {
    /// Least colours, in blocks of this many places, 1 to 65,536.
    OfSize(u32),
    /// As the file of this name says.
    AsPlanned(&'a str),
}

/// Which items of a program run.
#[derive(Clone, Copy, Debug)]
pub enum Stretch<'a> {
    /// All of them.
    Whole,
    /// Those before this one, from 0; behind them the state there is printed.
    Before { item: u32 },
    /// Those from the item of a state on, which the file of this name tells, begun with its values.
    From(&'a str),
}

/// How a program runs on ranks: which of its items do; how many ranks there are, 1 to 64; who owns which element; new
/// numbers by the map of this name, if any; blocks and colours; in which order the steps are taken, and by how many
/// workers, 1 to 64; and whether the ranks' memories are dumped behind the output.
#[derive(Clone, Copy, Debug)]
pub struct Options<'a> {
    pub stretch: Stretch<'a>,
    pub ranks: u32,
    pub parting: Parting<'a>,
    pub renumber: Option<&'a [u8]>,
    pub blocks: Blocks<'a>,
    pub schedule: Schedule<'a>,
    pub workers: u32,
    pub dumps: bool,
}

impl<'a> Options<'a> {
    /// How many places of one colour are begun together at most: 1 where there is one worker, which begins them one by
    /// one, and else 64.
    pub fn group(&self) -> u32
        ensures { result ≡ group_of (options_in self.now) }
    {
        if self.workers == 1 { 1 } else { MAX_GROUP }
    }
}

/// What is done with a program by chains of its loops.
#[derive(Clone, Copy, PartialEq, Eq, Debug)]
pub enum ChainJob {
    /// Its chains and their messages are counted.
    CountsChains,
    /// The program runs by them.
    RunsChains,
}

/// How a program runs by chains: how many ranks there are, 1 to 64; who owns which element; and whether the ranks'
/// stores are dumped behind the output.
#[derive(Clone, Copy, Debug)]
pub struct ChainOptions<'a> {
    pub ranks: u32,
    pub parting: Parting<'a>,
    pub dumps: bool,
}

/// Where a source and a mesh come from.
#[derive(Clone, Copy, Debug)]
pub enum Input<'a> {
    /// The source from the file `source`, and the mesh from the file `mesh`.
    InFiles { source: &'a str, mesh: &'a str },
    /// They are the sample on a square grid with so many cells a side.
    OfSample { side: Side },
}

/// What the words ask for.
#[derive(Clone, Copy, Debug)]
pub enum Asked<'a> {
    /// To plan the program over the mesh, with these options, and then the job.
    Plan {
        job: PlanJob,
        options: Options<'a>,
        input: Input<'a>,
    },
    /// To do the job on the chains of the program over the mesh, with these options.
    Chains {
        job: ChainJob,
        options: ChainOptions<'a>,
        input: Input<'a>,
    },
    /// To write the mesh text in the file `mesh` again, in this version of the format.
    Convert {
        form: Form,
        mesh: &'a str,
    },
    /// To write the source in the file `source` with each loop call a call of its own stub, and a table of the stubs.
    Translate {
        source: &'a str,
    },
    /// To write the source in the file `source` with each call of a stub a loop call again.
    Restore {
        source: &'a str,
    },
    /// What the program says of its use.
    Usage,
    /// The version of the program.
    Version,
}
