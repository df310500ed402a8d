// What docs/ERRORS.md says of the binding of a source to a mesh, and of stubs.

/// Their causes, and what to do about each: a line for each text.
pub const BINDINGS: &str = "\
    bind 1\top2: source bind 1 at \ta name in a set's place is no set declared before\tdeclare the set before\n\
    bind 2\top2: source bind 2 at \ta name in a map's place is no map declared before\tdeclare the map before, or \
        write `-1, OP_ID`\n\
    bind 3\top2: source bind 3 at \ta name in a dat's place is no dat declared before\tdeclare the dat before\n\
    bind 4\top2: source bind 4 at \ta name in a kernel's place is no kernel\tdefine the kernel before `main`\n\
    bind 5\top2: source bind 5 at \ta loop has not as many arguments as its kernel has parameters, or an \
        `op_printf` not as many values as conversions\tgive one for each\n\
    bind 6\top2: source bind 6 at \ta dim of 0, a negative size, a length that isn't size times dim, or a dim that \
        isn't its dat's or variable's\tcompare the entries of the mesh with the declaration\n\
    bind 7\top2: source bind 7 at \ta type other than `\"int\"`, a `&` too many or too few, or a `%` that is \
        neither `%d` nor `%%`\tevery value is an `int`\n\
    bind 8\top2: source bind 8 at \ta direct dat isn't on the loop's set, or a map doesn't lead from it to the \
        dat's set\tuse a map that leads from the loop's set\n\
    bind 9\top2: source bind 9 at \tan index that the map hasn't, or `OP_ID` with an index other than -1\tindices \
        go from 0 to the map's dim less 1\n\
    bind 10\top2: source bind 10 at \tan entry of a map is no element of its set; the first one\telements are \
        numbered from 0\n\
    bind 11\top2: source bind 11 at \ta variable is argument of one loop twice, not only read\tcopy it into another \
        variable\n\
    bind 12\top2: source bind 12 at \tOP_WRITE or OP_RW on a global, or another access than OP_READ on a \
        constant\tglobals are read, summed, lowered or raised\n\
    bind 13\top2: source bind 13 at \tan expression of `main` that must be known before the run isn't, or its \
        evaluation faults\tbounds and conditions of `main` are numbers, counters and `const` variables\n\
    bind 16\top2: source bind 16 at \ta declaration in a block, `if` or `for`, or behind the first loop\tdeclare at \
        the head of `main`\n\
    bind 17\top2: source bind 17 at \ta name that stands for no entry of the mesh file of its kind, or for no \
        variable that is asked for there\tcompare the `extern` names with the entries\n\
    translate 1\top2: translate 1 at \tin `translate`, a name begins with `op_par_loop_`, as those of stubs do; the \
        first one\trename it\n\
    translate 2\top2: translate 2 at \tin `restore`, a name that begins so isn't followed by `(`, or its rest is no \
        name\trestore what `translate` wrote\n\
    translate 3\top2: translate 3 at \tin `restore`, an `op_par_loop`\tit need not be restored";
