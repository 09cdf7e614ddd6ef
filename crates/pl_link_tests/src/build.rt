// Files of recipes, and faults of recipes.
use pl_base::{Rows, hex_digit};
use pl_build::recipes::{EXAMPLES, Example};
use pl_build::{RecipeFault, build};
use pl_cases::parts;
use sha2::{Digest, Sha256};
use std::alloc::{AllocError, Global};
use std::test::Fail;

// A recipe beside the examples, of the name `p2`.
const P2: &str = "program\nneeds libx\ndata 8\nref f global func\nrel globdat 0 f 0\n";

// The SHA-256 of the file of each recipe, from another builder.
const DIGESTS: &str = "\
one: 30c4cc65ccae12b146219a5b5503acc76a5a6a06a8b48056ae580f895061ec11\n\
liba: 5264dfee8ee0232a7fabc1c45bf633faa1adbdbe2f130fee244e142a10c6ae9f\n\
p: 587d1638f88324546c814b152100dc1df95130b8b749652d1a6f79773e931087\n\
libx: 49e6390255244ffba012eddb075ea9ea148cc7ef297bd524ed7a3e90b46f26f3\n\
liby: 15be937ecffef51965c63205530f7af1dd8eb0d2ead6a1ba64612fb5b968a496\n\
libz: 16cf44a051ec4d29767ad8b8674e52114f79c7472dd6d174a1fb965ee0ea98c3\n\
q: 62db95c1e5bea5741aed259d071fada70993095653cc955f5e3580214fa00e08\n\
libd: a27c7819b271f2f87ff60d69e1b9ba099f589ded68236ad791c35de90b93eb7e\n\
r: d30015b27a3363f35bded80fd1cae50612f471c385cbde481ef5da6fb507e82c\n\
w: 59b9ce1f86a1d5bfc52c6f47560d93240a377185899dd8e82e0038f25363af4d\n\
s: a29571c69c8ade6aac7abe3d0b1754955c0ecf73f5011e3e8134388117d26e77\n\
libm: e2a0ad206acdd4f5dbb17fcd7d440fe96b667d1338e8e8f83256effd8f9c0d83\n\
libn: 8893e2ad7027c3f5e887d3f9490037863aecb6b18e579cac79081a6a22b8a702\n\
c: 231d3f2ba8dffbe2ff47dc65cf439c07b3a14b015be3b8cabe07c7fbb1527596\n\
libv: 2630cc546c70671139161ff101ee9089460c899f51f4d9a4a11445e9e84f64bf\n\
v: 3166f87a61507debed6878bd6be13ff90e23d898b151bbb5d6c16a131aff53ee\n\
libt: 167e6e0c5a260d31dc0ee50cdb993d0e0119b1446102ded8d538c864aad9b32d\n\
libu: 1459433c79a7cf3e924283e64db4c58cfbe4ecd66eaa960d44f3b74f2a6c7bdb\n\
t: 2aae80062996d75e44d6d3b1902a2ad4dca4dae738695a5e13a297d517fd6697\n\
libk: 31863400f07a9f34ac1962f80e46decf127488d0a4270076087cda4305df8e11\n\
k: 2056aee0e0661860dab9cb2da0c9bf3d6e6d923dbdf9cf66ad45a658e9d32b2e\n\
libe1: 6b14b1f5f255ebe56b70c4b339ce3c67947adb4fae6f8d518dab3ce436826acf\n\
libe2: 41b44788bb6ec958e23915cad5702686d1b1c43aafbff0a8cf261480e2244231\n\
e: 6b94e153a0497d8db12c8b5a9885802497e108ced3aef220fef529bcd629c837\n\
b1: 87e94368094ab824b69993c1224095ae7045f804be6215e6aa87da27b9f7b47c\n\
b2: a49a485067f5256ab13e419fbb5598dafaeaad3900c1ee96733bc7fb21c19b80\n\
b3: b4509da6d45699ad8668493d2b40d11be3c33659755d671bbd590ab89c795aa8\n\
libsp: d46297f21ac28fbc0d611625784d96ccb707a4352e1c324aff3a6cab7590a1d9\n\
big: 98b63e8e80a079c966c305e01511e69bae2967f6ad13435c556e87c54462c856\n\
libsy: ebadae2829335550cae5ff3e28d00f8789ed833f2676216949afdcb8e6d8f97c\n\
y: 974a86677e0179fa98475971a405a437ede17808b88bf9fa2023818e9ca33475\n\
libsys.so.1: 5f2689f7faee54736dff8a3953f9182c2c2dfb291495806fe2b48442cc113cda\n\
libtext.so.2: 0c8fc58194ef6f80a00672fb568f0959762f1a52e8a1ac2a3e556dcf3f864b6a\n\
tool: 8865b1e7b52e5f4d81568f0a0566fa14643d5f9b58e5021590bfd07e143bac21\n\
onep: 47741924882060eda5df43a0dbde804830f7a25215b8a2cd4e9a667f92252044\n\
libpk: 9c0d6f4d23a6e7b8d3b22a8ec1cf0ca98c0eaf40258dd21c30f34baf50f97a58\n\
pi: 325b5302caaa5e9e9ce2bd97bfe90d164596c703ddf66b2e81bca6a76c05c238\n\
pr: 05be371059870abc010afd34911d623efdf0d22b5882f98888ee5cacb1c811d6\n\
pk: a82290a7ff391b93093d9c687d4abef856c03047e743fa976bb2fa73466a2818\n\
p2: 1cee26e872ecd062b421a6b7a659229cab3aa70d72770395c50145088e6d3096";

// Recipes with a fault, behind its line and its kind. A bar ends a line of a recipe.
const FAULTS: &str = "\
1 1: \n\
1 1: |program|\n\
1 1: usual|\n\
2 1: library|needs|\n\
2 1: program|program|\n\
2 2: program|buckets 0|\n\
2 2: program|buckets 1001|\n\
2 2: program|spare 101|\n\
2 2: program|data 800001|\n\
2 2: program|bss 2000001|\n\
2 1: program|data  8|\n\
2 1: program|data 8 |\n\
2 1: program|data A|\n\
2 1: program|data 00000000000000008|\n\
3 2: program|data 8|rel abs64 0 - 8000000000000000|\n\
3 2: program|data 8|rel abs64 0 - -8000000000000001|\n\
2 1: program|ref f@@V1 weak func from q|\n\
2 1: program|ref f@V1 weak func|\n\
2 1: program|ref f weak func from q|\n\
2 1: program|def f global func 0 8 from q|\n\
2 1: program|def f global func 0 8 from|\n\
2 1: program|def f global func 0|\n\
2 1: program|def f local func 0 8|\n\
2 1: program|def a/b global func 0 8|\n\
2 1: program|rel relative 0 f 0|\n\
2 1: program|rel pc32 0 - 0|\n\
2 2: program|word 0 1|\n\
3 2: program|data 8|word 1 1|\n\
2 3: program|rel abs64 0 f 0|\n\
2 3: program|def f@V global func 0 8|\n\
2 3: program|rel abs64 0 f 0|x|\n\
3 4: program|usual|usual|\n\
3 2: program|data 8|data 900000|\n\
4 4: program|ref f global func||def f global func 0 8|\n\
3 3: program|ref f global func|def f@V global func 0 8|def f@V global func 0 8|\n\
2 1: static|needs a|\n\
3 1: static|data 8|usual|\n\
4 1: program|||pie|\n\
2 1: pie|program|\n\
3 2: library|data 10|rel packed 1 - 0|\n\
3 2: library|data 10|rel packed a - 0|\n\
4 2: library|data 10|rel packed 8 - 0|rel packed 2 - 0|\n\
4 2: library|data 10|rel packed 0 - 0|rel packed 6 - 0|\n\
3 2: library|data 8|rel packed 0 - 8000000000000000|\n\
4 1: library|data 8|def f global func 0 8|rel packed 0 f 0|\n\
3 1: library|data 8|rel packed 0 - |\n\
3 1: library|data 8|rel packed 0 -|\n\
3 1: static|data 8|rel packed 0 - 0|";

// Recipes without a fault.
const FINE: &str = "\
program|word 0 1|data 8|\n\
program|data 8|rel abs64 0 f 0|ref f weak func|\n\
library|data 8|def f@V1 global func 0 8|version V1|\n\
library|version V|version V|\n\
static|data 10|bss 8|word 0 7|entry 0\n\
program|data 8|rel abs64 0 - 7fffffffffffffff|rel abs64 0 - -8000000000000000|\n\
library|hash gnu|def f unique ifunc 0 8 hidden|def g weak abs 0 8 protected|\n\
program|ref f@V global tls from lib at 8|ref f global tls at 8|\n\
pie|usual|hash gnu|data 20|rel packed 18 - -8|rel packed 0 - 7fffffffffffffff|rel packed 8 - 0|rel packed 10 - 8|\n\
library|rel packed 0 - -8000000000000000|word 0 1|data 8|";

// The recipe of a name among examples.
fn find(examples: &[Example], name: &str) -> Option<&'static str> {
    for (example, recipe) in examples {
        if *example == name {
            return Some(*recipe);
        }
    }
    None
}

fn recipe_of(name: &str) -> &'static str {
    if name == "p2" {
        return P2;
    }
    find(&EXAMPLES, name).unwrap_or("")
}

fn built(alloc: Global, recipe: &str) -> Result<Rows<u8>, RecipeFault> {
    let bytes = recipe.as_bytes();
    if bytes.len() < 0x1000 {
        build(alloc, bytes)
    } else {
        Err(RecipeFault::NoMemory)
    }
}

/// Bytes in hexadecimal.
fn hex(alloc: Global, bytes: &[u8]) -> Result<Vec<u8>, AllocError> {
    let mut text = Vec::new(alloc);
    for byte in bytes {
        text.push(hex_digit(*byte / 16))?;
        text.push(hex_digit(*byte % 16))?;
    }
    Ok(text)
}

fn digest(alloc: Global, recipe: &str) -> Result<Vec<u8>, RecipeFault> {
    let file = built(alloc, recipe)?;
    Ok(hex(alloc, &Sha256::digest(file.as_slice()))?)
}

#[test]
fn files_are_those_of_another_builder(rt: HostRuntime) -> Result<(), Fail> {
    for line in DIGESTS.lines() {
        let (name, expected) = parts(line)?;
        if digest(rt.alloc(), recipe_of(name))?.as_slice() != expected.as_bytes() {
            return Err(line.into());
        }
    }
    Ok(())
}

// The fault of a recipe, of line 0 and kind 0 where it has none.
fn fault_of(alloc: Global, recipe: &str) -> RecipeFault {
    match built(alloc, recipe) {
        Ok(_) => RecipeFault::Bad { line: 0, kind: 0 },
        Err(fault) => fault,
    }
}

// Whether the recipe of a line has the fault that it says.
fn has_fault(alloc: Global, line: &str) -> Result<bool, Fail> {
    let (fault, recipe) = parts(line)?;
    let (at, kind) = fault.split_once(' ').ok_or("a line and a kind")?;
    let wanted = RecipeFault::Bad {
        line: at.parse::<u32>()?,
        kind: kind.parse::<u8>()?,
    };
    Ok(fault_of(alloc, recipe.replace(alloc, "|", "\n")?.as_str()) == wanted)
}

#[test]
fn faults_have_their_line_and_kind(rt: HostRuntime) -> Result<(), Fail> {
    for line in FAULTS.lines() {
        if !has_fault(rt.alloc(), line)? {
            return Err(line.into());
        }
    }
    Ok(())
}

#[test]
fn recipes_without_a_fault(rt: HostRuntime) -> Result<(), Fail> {
    for line in FINE.lines() {
        let recipe = line.replace(rt.alloc(), "|", "\n")?;
        if built(rt.alloc(), recipe.as_str()).is_err() {
            return Err(line.into());
        }
    }
    Ok(())
}
