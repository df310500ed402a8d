// What docs/ERRORS.md says of a source: its tokens, its grammar, its names and types, and its accesses.

/// Their causes, and what to do about each: a line for each text.
pub const SOURCES: &str = "\
    lex 1\top2: source lex 1 at \ta byte that begins no token; a letter, digit or `_` directly behind a number; in \
        a text, a byte that it can't hold or an escape other than `\\n`, `\\t`, `\\\\` and `\\\"`\twrite numbers in \
        decimal digits, without leading zeros or suffixes\n\
    lex 2\top2: source lex 2 at \ta comment that is not closed\tclose it with `*/`\n\
    lex 3\top2: source lex 3 at \ta text that is not closed on its line\tclose it with `\"`\n\
    lex 4\top2: source lex 4 at \ta number above 2147483647\twrite `-2147483647 - 1` for the least number\n\
    syntax\top2: source syntax at \ta token that fits no rule of the grammar, or the end of the \
        source\tdocs/LANGUAGE.md opens with the grammar, docs/PORTING.md says for what C has beyond it what to \
        write\n\
    depth\top2: source depth at \tmore than 64 levels of nesting\ttake inner parts apart into variables\n\
    type 1\top2: source type 1 at \ta name that isn't known there\tdeclare it before; a kernel knows its \
        parameters, its own variables and constants\n\
    type 2\top2: source type 2 at \ta name declared again in its scope\trename one\n\
    type 3\top2: source type 3 at \twhat is no array is indexed or dereferenced\tleave the index out\n\
    type 4\top2: source type 4 at \twhat is no scalar stands as a value or a target\tindex it, as `a[0]` or `*a`\n\
    type 5\top2: source type 5 at \tthe counter of a `for` is assigned\tuse a variable of its own\n\
    type 6\top2: source type 6 at \twhat is constant is assigned\tleave `const` out, or assign before its \
        `op_decl_const`\n\
    type 7\top2: source type 7 at \ta kernel executes more than 1,048,576 statements or has more than 1,024 cells \
        of its own, or an array has no cell or more than 1,024\tlet the kernel do less\n\
    access 1\top2: source access 1 at \tan OP_READ argument is assigned\task for OP_WRITE, OP_RW or a reduction\n\
    access 2\top2: source access 2 at \tan OP_INC, OP_MIN or OP_MAX argument is read\task for OP_RW, or read it \
        through an argument of its own\n\
    access 3\top2: source access 3 at \tan OP_INC argument is assigned other than by `+=` and `-=`\twrite `a[0] += \
        ..;`\n\
    access 4\top2: source access 4 at \ta component of an OP_WRITE argument is read before it is assigned on every \
        path\tassign it first, or ask for OP_RW\n\
    access 5\top2: source access 5 at \ta component of an OP_WRITE argument isn't assigned on every path\tassign it \
        in each branch\n\
    access 6\top2: source access 6 at \tan index on an OP_WRITE argument isn't made of numbers and counters\tuse a \
        number or a counter\n\
    access 7\top2: source access 7 at \tan index of numbers and counters is outside the argument's dim\tindices go \
        from 0 to the dim less 1\n\
    access 8\top2: source access 8 at \tan OP_MIN or OP_MAX argument is assigned in another form than `p = MIN(p, \
        ..)` or `p = MIN(.., p)`, or with MAX\twrite that form, with the same `p` twice; `MIN(.., p)` is allowed as \
        well";
