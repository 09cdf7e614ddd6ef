//! Recipes of small programs and libraries, as examples and for tests: a name and the lines of each.

/// A file's name and its recipe.
pub type Example = (&'static str, &'static str);

/// Programs and libraries that need one another: plain ones, copies, cycles, versions, thread-local storage, packed relocations, position-independent programs, and some whose relocations no accepted file has.
pub const EXAMPLES: [Example; 39] = [
    ("one", "program\ndata 10\nword 8 7\nrel relative 0 - 8\n"),
    (
        "liba",
        "library\ndata 8\nword 0 1111\ndef f global func 0 8\n",
    ),
    (
        "p",
        "program\nneeds liba\ndata 8\nref f global func\nrel globdat 0 f 0\n",
    ),
    (
        "libx",
        "library\ndata 8\nword 0 aaaa\ndef f global func 0 8\n",
    ),
    (
        "liby",
        "library\ndata 8\nword 0 bbbb\ndef f global func 0 8\n",
    ),
    (
        "libz",
        "library\nneeds liby\nneeds libx\ndata 8\nref f global func\nrel globdat 0 f 0\n",
    ),
    ("q", "program\nneeds libx\nneeds libz\ndata 8\n"),
    (
        "libd",
        "library\nneeds libx\ndata 8\ndef d global object 0 8\nref f global func\nrel abs64 0 f 0\n",
    ),
    (
        "r",
        "program\nneeds liby\nneeds libd\ndata 8\nbss 8\ndef d global object 8 8\nrel copy 8 d 0\n",
    ),
    ("w", "program\ndata 8\nref g weak object\nrel abs64 0 g 8\n"),
    (
        "s",
        "program\ndata 8\nref g global object\nrel abs64 0 g 8\n",
    ),
    (
        "libm",
        "library\nneeds libn\nneeds libm\ndata 8\nref n global object\ndef m global object 0 8\nrel globdat 0 n 0\n",
    ),
    (
        "libn",
        "library\nneeds libm\nneeds libn\ndata 8\nref m global object\ndef n global object 0 8\nrel globdat 0 m 0\n",
    ),
    (
        "c",
        "program\nneeds libm\ndata 8\nref m global object\nrel abs64 0 m 4\n",
    ),
    (
        "libv",
        "library\nversion V1\nversion V2\ndata 10\nword 0 1\nword 8 2\ndef foo@V1 global func 0 8\ndef foo@@V2 global func 8 8\n",
    ),
    (
        "v",
        "program\nneeds libv\ndata 18\nref foo@V1 global func from libv\nref foo@V2 global func from libv\nref foo global func\nrel globdat 0 foo@V1 0\nrel globdat 8 foo@V2 0\nrel globdat 10 foo 0\n",
    ),
    (
        "libt",
        "library\ndata 18\ntls 0 0 8 40\ndef a global tls 4 4\nrel dtpmod 0 a 0\nrel dtpoff 8 a 0\nrel tpoff 10 a 0\n",
    ),
    (
        "libu",
        "library\ndata 10\ntls 0 0 5 1\ndef b global tls 1 4\nrel dtpmod 0 - 0\nrel tpoff 8 b 2\n",
    ),
    (
        "t",
        "program\nneeds libt\nneeds libu\ndata 8\ntls 0 0 8 8\n",
    ),
    (
        "libk",
        "library\ndata 10\nword 0 5\ndef h global func 0 8\nrel globdat 8 h 0\n",
    ),
    (
        "k",
        "program\nneeds libk\ndata 18\nref h global func at 10\nrel globdat 0 h 0\nrel jumpslot 8 h 0\n",
    ),
    (
        "libe1",
        "library\ndata 10\nword 0 11\nword 8 22\ndef x global object 0 10\n",
    ),
    (
        "libe2",
        "library\ndata 10\nword 0 33\nword 8 44\ndef x global object 0 8\n",
    ),
    (
        "e",
        "program\nneeds libe\nbss 10\ndef x global object 0 10\nrel copy 0 x 0\n",
    ),
    ("b1", "program\ndata 8\nrel relative 4 - 0\n"),
    (
        "b2",
        "program\ndata 10\nrel relative 0 - 0\nrel relative 7 - 0\n",
    ),
    ("b3", "program\ndata 8\nrel irelative 0 - 0\n"),
    ("libsp", "library\nspare 1\ndata 8\n"),
    ("big", "program\ndata 8\ntls 0 0 40000001 1\n"),
    (
        "libsy",
        "library\nsymbolic\ndata 10\ndef f global func 0 8\nrel globdat 8 f 0\n",
    ),
    ("y", "program\nneeds libsy\ndata 8\ndef f global func 0 8\n"),
    (
        "libsys.so.1",
        "library\nusual\nhash both\nversion SYS_1\ndata 20\nbss 10\ntls 0 0 8 8\nword 18 2a\ndef errno@@SYS_1 global tls 0 4\ndef environ@@SYS_1 weak object 18 8\ndef puts@@SYS_1 global func 10 8\nref __gmon_start__ weak func\nrel globdat 0 __gmon_start__ 0\nrel tpoff 8 errno@@SYS_1 0\n",
    ),
    (
        "libtext.so.2",
        "library\nusual\nhash gnu\nneeds libsys.so.1\ndata 18\ndef show global func 10 8\nref puts@SYS_1 global func from libsys.so.1\nrel jumpslot 0 puts@SYS_1 0\nrel relative 8 - 10\n",
    ),
    (
        "tool",
        "program\nusual\nhash gnu\nneeds libtext.so.2\nneeds libsys.so.1\nentry 0\ndata 10\nbss 8\ndef environ@SYS_1 weak object 10 8 from libsys.so.1\nref show global func\nref puts@SYS_1 global func from libsys.so.1\nrel jumpslot 0 show 0\nrel jumpslot 8 puts@SYS_1 0\nrel copy 10 environ@SYS_1 0\n",
    ),
    ("onep", "program\ndata 10\nword 8 7\nrel packed 0 - 8\n"),
    (
        "libpk",
        "library\ndata 210\nrel packed 0 - 10\nrel packed 8 - 18\nrel packed 200 - 0\n",
    ),
    ("pk", "program\nneeds libpk\ndata 8\n"),
    (
        "pi",
        "pie\nneeds liba\nentry 0\ndata 10\nref f global func\nrel globdat 0 f 0\nrel relative 8 - 0\n",
    ),
    ("pr", "pie\ndata 10\nrel packed 0 - 8\n"),
];
