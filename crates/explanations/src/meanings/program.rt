// What docs/ERRORS.md says of the program: its words, its files, its output and its faults.

/// Their causes, and what to do about each: a line for each text.
pub const PROGRAM: &str = "\
    out of memory\top2: out of memory\tmemory ran out; it may come at any point, and nothing was written then\tgive \
        it more memory, or a smaller mesh\n\
    usage\top2: usage\tthe words name no job with its files, hold an option that isn't known, that the job doesn't \
        take, that stands twice or whose value is none, or aren't UTF-8\t`op2 --help` and docs/COMMANDS.md tell the \
        words\n\
    cannot read\top2: cannot read \tthe file isn't there or can't be read, as a folder can't. NAME stands as the \
        words have it, so that a name with a newline makes two lines of this\tcheck the name and its permissions\n\
    cannot write\top2: cannot write\tstandard output took no more: a full device, a closed pipe; what stands there \
        is a front of the output\tgive it room\n\
    fault\top2: fault item \tin a kernel, a division by zero (`div-zero`), a shift by less than 0 or more than 31 \
        (`shift-count`) or an index out of range (`index`): item K of the run, counted from 0, element E of its \
        set, by its number in the mesh. What was printed before stands\tlook at the operator or the name at L:C \
        with that element's values; items are the lines `item K` of `op2 plan`";
