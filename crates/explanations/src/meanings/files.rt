// What docs/ERRORS.md says of meshes, partitions, schedules, plans and states.

/// Their causes, and what to do about each: a line for each text.
pub const FILES: &str = "\
    mesh 1\top2: mesh 1 line \tthe first two words are not `op2mesh 1` or `op2mesh 2`\tbegin with the header\n\
    mesh 2\top2: mesh 2 line \ta word that may not stand there, no `done` at the end, or words behind it\tend with \
        `done`\n\
    mesh 3\top2: mesh 3 line \ta name a second time\trename one\n\
    mesh 4\top2: mesh 4 line \tnot as many values as announced\tcount the values\n\
    mesh 5\top2: mesh 5 line \ta value outside 32 bits\tevery value is an `int`\n\
    partition name\top2: partition name \t`--renumber` or `--parts` names no map or no dat of the program\tmaps and \
        dats have their names in the source, not the texts of `op_decl_map` and `op_decl_dat`\n\
    partition 1\top2: partition 1 line \tthe first two words are not `op2part 1`\tbegin with the header\n\
    partition 2\top2: partition 2 line \ta word that may not stand there, a set a second time, an end before \
        `done`, or words behind it\tend with `done`\n\
    partition 3\top2: partition 3 line \ta name that no set has in the source\tsets have their names in the source, \
        not the texts of `op_decl_set`\n\
    partition 4\top2: partition 4 line \t`done` before every set stood\teach set of the program stands once\n\
    partition 5\top2: partition 5 line \ta count that isn't the set's size, or not as many ranks as the count \
        says\tone rank for each element\n\
    partition 6\top2: partition 6 line \ta rank that there isn't\tranks go from 0 to one less than `--ranks`\n\
    text 1\top2: schedule text 1 line \tthe first two words are not `op2sched 1`\tbegin with the header\n\
    text 2\top2: schedule text 2 line \ta word that may not stand there, a number of 2^32 or more, no `done` at the \
        end, or words behind it\twrite a step's three numbers, or the one of a join\n\
    step 1\top2: schedule step 1 line \ta step that the plan hasn't\t`op2 schedule` writes the steps that there \
        are\n\
    step 2\top2: schedule step 2 line \ta step that was taken\ttake each step once\n\
    step 3\top2: schedule step 3 line \ta step before one that has to come first; the first such step in standard \
        order is named\ttake that one before\n\
    step 4\top2: schedule step 4 line \ta step of the plan that isn't taken; the first such step in standard order \
        is named\ttake it too\n\
    plan 1\top2: plan 1 line \tthe first line isn't `op2plan 1`\tbegin with the header\n\
    plan 2\top2: plan 2 line \tthe second isn't `ranks N block B` with the number of ranks and 1 to 65536, without \
        leading zeros\tgive the ranks by `--ranks`, not by the text alone\n\
    plan 3\top2: plan 3 line \ta `halo` line isn't that of the program on these ranks\tgive the owners and the new \
        numbers too for which the plan was made\n\
    plan 4\top2: plan 4 line \ta `site` line has another form, loop, rank or count of places, or not a colour below \
        4294967296 for each block and each place\t`op2 plan` with the same `--block` writes as many colours\n\
    plan 5\top2: plan 5 line \tan `item` line isn't that of the program\ttake the line that `op2 plan` writes\n\
    plan 6\top2: plan 6 line \ttwo blocks in conflict have one colour\tblocks that reduce into a common element \
        need different colours\n\
    plan 7\top2: plan 7 line \ttwo places of a block in conflict have one colour\tplaces of a block that reduce \
        into a common element need different colours\n\
    plan 8\top2: plan 8 line \tthe line behind the items isn't `done`, or bytes follow it\tend with `done` and a \
        newline\n\
    state item\top2: state item \tthere is no item K, or it is a sum\t`op2 plan` writes the items; K may be their \
        number, too, behind the last\n\
    state 1\top2: state 1 line \tno line `op2state 1` that isn't the first line of the file\ttake what `state` \
        wrote whole, with the LF before its header\n\
    state 2\top2: state 2 line \tthe next line isn't `item K` with an item before which the program is cut, without \
        leading zeros\tgo on with the program that was cut\n\
    state 3\top2: state 3 line \ta line `var` or `dat:` isn't that of the program over this mesh\tgive the source \
        and the mesh that were cut\n\
    state 4\top2: state 4 line \ta line of values has more or fewer than awaited, or one outside 32 bits\tsingle \
        spaces, no other bytes; every value is an `int`\n\
    state 5\top2: state 5 line \tthe line behind the values isn't `done`, or bytes follow it\tend with `done` and a \
        newline";
