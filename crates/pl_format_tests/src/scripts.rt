// Tests of pl_script.
use pl_script::{Event, MAX_LOADERS, MAX_RUNS, RunLine, Script, ScriptFault, read_script};
use std::alloc::Global;
use std::test::Fail;

/// The line at which a text is wrong, or 0 where it is a script, and the text, in which a bar stands for a newline.
const TEXTS: &str = "\
0: \n\
1: |\n\
0: rename\n\
0: rename|\n\
2: rename||\n\
1: rename x|\n\
0: load p|open 0|\n\
1: open 0\n\
0: open 0|load p|open 0|\n\
2: load p|open 1|\n\
2: load p||open 0|\n\
2: load p|open 00|\n\
2: load p|open -0|\n\
1: load p\r|\n\
1: load p |\n\
1:  load p|\n\
1: load  p|\n\
1: load a/b|\n\
1: load .prelink.cache|\n\
1: Load p|\n\
0: prelink 0|prelink 4294967295|\n\
1: prelink 01|\n\
1: prelink 4294967296|\n\
0: undo|undo a b c|\n\
0: install a b|\n\
1: install a|\n\
1: install a b c|";

fn wrong_line(alloc: Global, text: &[u8]) -> Result<u64, ScriptFault> {
    match read_script(alloc, text) {
        Ok(_) => Ok(0),
        Err(ScriptFault::Wrong { line }) => Ok(line),
        Err(ScriptFault::NoMemory) => Err(ScriptFault::NoMemory),
    }
}

/// Whether the text of a row is wrong at the line that it says.
fn is_told(alloc: Global, row: &str) -> Result<bool, Fail> {
    let (line, text) = row.split_once(": ").ok_or("a colon")?;
    let line = line.parse::<u64>()?;
    let text = text.replace(alloc, "|", "\n")?;
    Ok(wrong_line(alloc, text.as_bytes())? == line)
}

#[test]
fn tells_the_first_wrong_line(rt: HostRuntime) -> Result<(), Fail> {
    for row in TEXTS.split('\n') {
        if !is_told(rt.alloc(), row)? {
            return Err(row.into());
        }
    }
    Ok(())
}

/// The line at which a text of so many equal lines is wrong, or 0.
fn wrong_of(alloc: Global, line: &str, count: usize) -> Result<u64, ScriptFault> {
    let text = line.repeat(alloc, count)?;
    wrong_line(alloc, text.as_bytes())
}

#[test]
fn keeps_its_limits(rt: HostRuntime) -> Result<(), ScriptFault> {
    let alloc = rt.alloc();
    assert!(rt; wrong_of(alloc, "load p\n", MAX_LOADERS)? == 0);
    assert!(rt; wrong_of(alloc, "load p\n", MAX_LOADERS + 1)? == 65);
    assert!(rt; wrong_of(alloc, "undo\n", MAX_RUNS)? == 0);
    assert!(rt; wrong_of(alloc, "undo\n", MAX_RUNS + 1)? == 17);
    Ok(())
}

/// Whether a script loads this program alone, installs one file from another, and has these events.
fn is_first_example(script: &Script) -> bool {
    let [load] = script.loads.as_slice() else {
        return false;
    };
    let [RunLine::Install { name, from }] = script.runs.as_slice() else {
        return false;
    };
    let [
        Event::Open { loader: 0 },
        Event::Rename,
        Event::Open { loader: 0 },
    ] = script.events.as_slice()
    else {
        return false;
    };
    load.as_str() == "p" && name.as_str() == "liba" && from.as_str() == "libx"
}

/// Whether a script is read as its lines say.
fn reads_example(alloc: Global) -> Result<bool, ScriptFault> {
    let text = b"load p\ninstall liba libx\nopen 0\nrename\nopen 0\n";
    let script = read_script(alloc, text)?;
    Ok(is_first_example(&script))
}

#[test]
fn reads_what_lines_say(rt: HostRuntime) -> Result<(), ScriptFault> {
    assert!(rt; reads_example(rt.alloc())?);
    Ok(())
}
