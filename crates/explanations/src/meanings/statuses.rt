// What docs/COMMANDS.md says of the statuses.

/// What each means, and its lines. They stand behind the texts of single errors, which explain lines first: a line for
/// each text.
pub const STATUSES: &str = "\
    status 0\tstatus 0\tall is well: what was asked for is written\tit has no line\n\
    status 1\top2: out of memory\tout of memory\tits line: `op2: out of memory`\n\
    status 2\top2: usage\tthe words ask for nothing that there is, or one of them isn't UTF-8\tits line: `op2: \
        usage`\n\
    status 3\top2: cannot read \ta file can't be read\tits line: `op2: cannot read NAME`\n\
    status 4\top2: cannot write\tstandard output can't be written\tits line: `op2: cannot write`\n\
    status 5\top2: source \tthe source is refused: its tokens, its grammar, its nesting, its names and types, its \
        binding to the mesh, or what a kernel does to its arguments\tits line: `op2: source lex N at L:C`, `op2: \
        source syntax at L:C`, `op2: source depth at L:C`, `op2: source type N at L:C`, `op2: source bind N at \
        L:C`, `op2: source bind 10 at L:C map M element E place P`, `op2: source access N at L:C`\n\
    status 6\top2: mesh \tthe mesh text is refused\tits line: `op2: mesh N line L`\n\
    status 7\top2: partition \tthe ranks are refused: no map or dat has the name, or the partition text is none of \
        the mesh\tits line: `op2: partition name NAME`, `op2: partition N line L`\n\
    status 8\top2: schedule \tthe schedule is refused: its text; a step that the plan hasn't (1), or that was taken \
        (2); a step before one that has to come first; steps that are left at the end\tits line: `op2: schedule \
        text N line L`, `op2: schedule step N line L STEP`, `op2: schedule step 3 line L STEP needs STEP`, `op2: \
        schedule step 4 line L needs STEP`\n\
    status 9\top2: fault item \tthe run has a fault: a division by zero, a shift count outside 0 to 31, an index \
        out of range\tits line: `op2: fault item K element E KIND at L:C`, or `op2: fault item K host KIND at L:C` \
        for a statement of `main`\n\
    status 10\top2: limit \ta size is beyond its limit\tits line: `op2: limit NAME LIMIT SIZE`\n\
    status 12\top2: plan \tthe plan that is given is refused: its text is none of the program on these ranks\tits \
        line: `op2: plan N line L`\n\
    status 13\top2: state \tthe program isn't cut before item K of `--at`, or the text of `--from` is no state of \
        it\tits line: `op2: state item K`, `op2: state N line L`\n\
    status 14\top2: translate \ta source is not translated, since a name is that of a stub, or not restored, since \
        a stub isn't called or a loop call is left\tits line: `op2: translate N at L:C`";
