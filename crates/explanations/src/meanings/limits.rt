// What docs/ERRORS.md says of sizes beyond their limits.

/// Their causes, and what to do about each: a line for each text.
pub const LIMITS: &str = "\
    limit source-bytes\top2: limit source-bytes \tbytes of the source\twrite a `for` where statements are alike; \
        leave comments out\n\
    limit mesh-bytes\top2: limit mesh-bytes \tbytes of the mesh file\twrite runs of equal values as version 2 has \
        them (docs/TEXTS.md), and no leading zeros\n\
    limit mesh-values\top2: limit mesh-values \tvalues of all entries so far, this one included\tleave out entries \
        that the source doesn't name; let several dats begin with one array of zeros\n\
    limit state-bytes\top2: limit state-bytes \tbytes of the file of `--from`, with the output before the state; \
        `state` writes more, too\tleave out the output before the state, but for one LF\n\
    limit partition-bytes\top2: limit partition-bytes \tbytes of the partition file\tsingle blanks, no leading \
        zeros; or a rule of `--parts`\n\
    limit plan-bytes\top2: limit plan-bytes \tbytes of the plan file\tno leading zeros; fewer ranks\n\
    limit schedule-bytes\top2: limit schedule-bytes \tbytes of the schedule file\tsingle blanks, no leading zeros\n\
    limit schedule-steps\top2: limit schedule-steps \tsteps of the schedule file\tas for `steps`: no plan with more \
        is run\n\
    limit sets\top2: limit sets \tdeclarations\tjoin dats of one set to one of a larger dim, and maps likewise\n\
    limit maps\top2: limit maps \tdeclarations\tjoin dats of one set to one of a larger dim, and maps likewise\n\
    limit dats\top2: limit dats \tdeclarations\tjoin dats of one set to one of a larger dim, and maps likewise\n\
    limit set-size\top2: limit set-size \telements of a set\ta coarser mesh, or parts of it in runs of their own\n\
    limit dim\top2: limit dim \tvalues of a dat or a map at an element, or of a global argument\ttwo dats, or two \
        maps\n\
    limit mesh-cells\top2: limit mesh-cells \telements of all sets, and values of all maps and dats, declared so \
        far\tfewer dats: one that is only used inside a loop can be a local of its kernel\n\
    limit arguments\top2: limit arguments \targuments of a loop\tjoin dats of one set to one of a larger dim; split \
        the loop\n\
    limit trace\top2: limit trace \tloops, their sums, statements and turns of a `for` that `main` goes \
        through\tfewer turns in one run: print the dats, and begin the next run with them; `--at` and `--from` \
        don't help, since the whole program is counted\n\
    limit steps\top2: limit steps \tsteps of the plan: two for each kernel call and each message, one for each \
        join, those of a state that is written too\tfewer turns, a coarser mesh, or fewer ranks, since these repeat \
        elements along their borders; or parts of the run by `state` and `--from`, each with a plan of its own; or \
        `--chain`, which has no plan\n\
    limit print-weight\top2: limit print-weight \tthe bytes that `main` may print, by an estimate: a printed dat \
        counts 12 for each value (docs/BINDING.md)\tprint fewer dats, or not in each turn";
