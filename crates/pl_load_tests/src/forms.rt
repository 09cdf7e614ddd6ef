// The forms of whole sets, byte for byte against a builder that is not this one, and what is in the way of a form.
ghost use Rattle.std.specs.Bool.{OnTrue};
ghost use Rattle.std.specs.List.{All};
ghost use Rattle.std.specs.Prelude.{◌≡◌, List, ℕ, length, IfOk};
ghost use Rattle.pl_form.specs.Words.{AreFills};
ghost use Rattle.pl_scope.specs.Scope.{objects, IsAccepted};
ghost use Rattle.pl_value.specs.Ordinary.{ArePlaced};

use crate::firm::{file_of, fills_of};
use crate::marked::find;
use crate::walked::{
    Original, STAMP, Sample, files_of, firm_bytes, list_of, modules_of, originals_of, places_of,
    samples_of, scope_of, slots_of, walked,
};
use pl_base::Rows;
use pl_cases::{bytes_of, numbers, parts};
use pl_conflict::{conflicts, own_words};
use pl_elf::Range;
use pl_form::{Fill, FormFault, Version, check_form, form_library, form_program};
use pl_image::Parts;
use pl_lists::ConflictRow;
use pl_object::{ORIGINAL, Reloc, accept};
use pl_scope::Scope;
use pl_tls::Module;
use pl_value::{Places, ordinary};
use sha2::{Digest, Sha256};
use std::alloc::Global;
use std::test::Fail;

/// Sets of files, parted by empty lines. A file has its name, the address that its address 0 gets, 0 for a program, the SHA-256 of its form in version 1 and in version 2, `-` where the other builder has no form, and its recipe: one library; two definers of one symbol; a copy; a cycle; versions; thread-local storage; a canonical address; files as a linker makes them; a symbolic library; packed relocations. The libraries of a set ascend by their names, as their places do.
const SETS: &str = "\
liba 3000000000 5dc77fdfbacfb38cfc45f8b0cf6cb108140d9ac273511bc7d41a8cec9e64378b 1aaa2aaf584bd6f55019ad1afad96a025ca93a3a85c6963d40f8e025ce4b613b: library; data 8; word 0 1111; def f global func 0 8\n\
p 0 df1e012c89f6b72e8b9c7f1bbc6d07c60050fa30245a046cfed4b8e3b25adc9b 339827d61b7290780d55177f0cba93d41d4c60dddc8cbe3075475805d942599f: program; needs liba; data 8; ref f global func; rel globdat 0 f 0\n\
\n\
libx 3000000000 9ff7787db8e0e19a8302f358b7a9f343a3c4919ea6c0b09440f101124e27e5ee f7560aa7329e066bf1e649bbf4f3a318745c76b3c816695071163743b0b3d479: library; data 8; word 0 aaaa; def f global func 0 8\n\
liby 3000101000 96babaab7052bf76f2fc31dc1b85d9c419fa9ebac9713cbd196d24caaa151c72 5ffd45f99986cdaeffdbb10ad18a6b8b06b84c69296065d54043e179688a8495: library; data 8; word 0 bbbb; def f global func 0 8\n\
libz 3000202000 b85caf09692211b5f61831beda59da3cbf845a6bd7e8a8d5b4301ef342cf8c23 9e792622b882a9dac2105006c8c9c9f3bb2390311b31bd75f0c3a563b58cf115: library; needs liby; needs libx; data 8; ref f global func; rel globdat 0 f 0\n\
q 0 7af65d247ade4daff61cbb24dc1db85853a92bc66a4a27f2c42e2942c8f62482 8f55dc646f8019f9a93b6933313b174f2a38cd49b58953c60a1988900e03b08a: program; needs libx; needs libz; data 8\n\
\n\
libd 3000000000 ae39490be4a0197c16279659ceeac321dff1e6d4ecea05a6c7f76bff703d6141 7feb1b8926212375d9dfed9a2e602c3d6ecf9370d934cad8289a1f7de97fbaf0: library; needs libx; data 8; def d global object 0 8; ref f global func; rel abs64 0 f 0\n\
libx 3000101000 f832983e908f444e878c5974c0a3ea3886c60af2acc8004123db8e8be02fd035 f0cd11bd0ec58324a274e93177c350a8875e3fbd8fd049db3f6761b17b4ccdd2: library; data 8; word 0 aaaa; def f global func 0 8\n\
liby 3000202000 aff5a56d24bd18b8cdf628d579912e5862e28c5e92680369d983ebb48a5c1613 63297b09dacb4540938c8755bc36858914ed71866cb648e554431e7aa0335f48: library; data 8; word 0 bbbb; def f global func 0 8\n\
r 0 ee7ed70304aa81f59357efd6bb715fb6032918481616ca6896f968f8a929e135 1ff2801eed561609986bf90cc005eca3d4d6e51d43325a8a81135ab4bc43756a: program; needs liby; needs libd; data 8; bss 8; def d global object 8 8; rel copy 8 d 0\n\
\n\
libm 3000000000 99598a69379e7fd5c33267808d5d79e574cacaa6449d4295f1eab6e025874ca9 8aed86dec2e165d7a44320e9f0ac2f1fe5e324a096f4c295c7df15a891300901: library; needs libn; needs libm; data 8; ref n global object; def m global object 0 8; rel globdat 0 n 0\n\
libn 3000101000 41c499d9644bdd042472072f4665cf05bba5f9c0277dbd70acc2e9e19b002c15 53ee1bba035ea09462b3ddce37f736725090829cb1312e85a3a85594f3586298: library; needs libm; needs libn; data 8; ref m global object; def n global object 0 8; rel globdat 0 m 0\n\
c 0 c937057758dabd53b1980f30304e2945902656298fc7d27af1f4532cc7ffcce9 30a1a715e79c80346aab3b9aa2fa1db715c8979da9e877b46e4acbd16d9657c1: program; needs libm; data 8; ref m global object; rel abs64 0 m 4\n\
\n\
libv 3000000000 0cf8ff49919d49f6a1fd51e25d34eadf7c3d1bad9e49ac800e5a43002f46a5c1 e5c4617fb8c10723d2e776bb6368e343d055e73dce85b8be57051a66168649bf: library; version V1; version V2; data 10; word 0 1; word 8 2; def foo@V1 global func 0 8; def foo@@V2 global func 8 8\n\
v 0 ade2d58f88a01559ed611d20a98840882834165a69ad96be49819fa338e1e9fc 7b6c3f0f1a2ca3e86a73c90a0e8ee48b710090ef8c98540c3c3ba4dd25fa02dd: program; needs libv; data 18; ref foo@V1 global func from libv; ref foo@V2 global func from libv; ref foo global func; rel globdat 0 foo@V1 0; rel globdat 8 foo@V2 0; rel globdat 10 foo 0\n\
\n\
libt 3000000000 c4e000416128e08c2a273e68d6e70092738151b252b21aa52ec238bfe7d40e6f bf7ae14b18799bd46b6d061c9511a40a72b1eea247e4e3265578a588488c0880: library; data 18; tls 0 0 8 40; def a global tls 4 4; rel dtpmod 0 a 0; rel dtpoff 8 a 0; rel tpoff 10 a 0\n\
libu 3000101000 20db2fbdc7039a920fb07b23c26e5598e89db8667145d71314a4f64d0a8635b3 f988d5e74a0503c2176033c6ef5f12d119f9cbdce45acf76e637da6809f23318: library; data 10; tls 0 0 5 1; def b global tls 1 4; rel dtpmod 0 - 0; rel tpoff 8 b 2\n\
t 0 21f811ab0837d4cbc27ec12b182c958637cd1f538afe1ca9ddae5e60f9abc87f 1276e7ff2831cf31bd854992cc012b11532d9acd14d91167a8d95bbaa76b6abe: program; needs libt; needs libu; data 8; tls 0 0 8 8\n\
\n\
libk 3000000000 06d86565749e102f736aa02e9dcc37393d79ddb9bf09c8040b8045c285c53231 77826a06f8fd6cf8debe31b7b9a0c5fc626fb1148e2fcee5069e6099a8566bf4: library; data 10; word 0 5; def h global func 0 8; rel globdat 8 h 0\n\
k 0 7839f1cdfe397e05388ac1a3284bab437a924cbc4403abbaa30d4cb70ac2a8e3 5bf23d33f16dc25b43ecfea3a71201af9cd31c592a51288e59c04d0449c679b4: program; needs libk; data 18; ref h global func at 10; rel globdat 0 h 0; rel jumpslot 8 h 0\n\
\n\
libsys.so.1 3000000000 ee8bd7a67938c8ebb37ca975702c0b1014266fa4b2a1b73fe4d0c9348d4b9257 dd3b432a18f1e524bec6204d19ae0e008e66a0b6ab7ab3d4dd427ed9321017b6: library; usual; hash both; version SYS_1; data 20; bss 10; tls 0 0 8 8; word 18 2a; def errno@@SYS_1 global tls 0 4; def environ@@SYS_1 weak object 18 8; def puts@@SYS_1 global func 10 8; ref __gmon_start__ weak func; rel globdat 0 __gmon_start__ 0; rel tpoff 8 errno@@SYS_1 0\n\
libtext.so.2 3000101000 19b1d4008c69cda63fa084ee0a86f79deb1f98aac3827fef9c04dfb2709c14f9 4b10e31bae1f3fdc375fed81b42c5dcf8367b26c34149bf6d787901c4c64d040: library; usual; hash gnu; needs libsys.so.1; data 18; def show global func 10 8; ref puts@SYS_1 global func from libsys.so.1; rel jumpslot 0 puts@SYS_1 0; rel relative 8 - 10\n\
tool 0 a98795a0cd80fb3cbf29d0cd4f76d67ebffc61f1f4868964071263717e442d09 3b42972e6f57e07f4f4ad89fd6e7afaec97ce0b91022d71de03e86691b158bfb: program; usual; hash gnu; needs libtext.so.2; needs libsys.so.1; entry 0; data 10; bss 8; def environ@SYS_1 weak object 10 8 from libsys.so.1; ref show global func; ref puts@SYS_1 global func from libsys.so.1; rel jumpslot 0 show 0; rel jumpslot 8 puts@SYS_1 0; rel copy 10 environ@SYS_1 0\n\
\n\
libsy 3000000000 27e7fdb368037627e4467d69618d77188c754a7ab7eb19679e3a2c035a120ce7 090b0efd67efe2dc8fe75ce5c6203c1c140ee264ab19264cd4ef30d06e0609ba: library; symbolic; data 10; def f global func 0 8; rel globdat 8 f 0\n\
y 0 d8a53d2be0af1f6d1b32bbd73ca02877570000788968c26c8f1bcf165123cb2d d1c57313b1d906c4ad5314912789a9bc118f31248fa9e3f71edd469ec0635222: program; needs libsy; data 8; def f global func 0 8\n\
\n\
libpk 3000000000 - 62df760707bec00edb6dfa0d15a16e7dd9346026d0865a89e67ebd6270dff1a5: library; data 210; rel packed 0 - 10; rel packed 8 - 18; rel packed 200 - 0\n\
pk 0 - 4ef6258462dbfb79e05624006e8d8aaef4e2c0e035040636efcf7377760b8030: program; needs libpk; data 8";

/// The set of a number, counted from 0.
fn set_of(alloc: Global, number: u64) -> Result<Vec<Sample>, Fail> {
    let set = SETS
        .split("\n\n")
        .nth(number as usize)
        .ok_or("a set of this number")?;
    samples_of(alloc, set)
}

/// Whether there is one part for each member.
fn is_one_each(parts: &Parts<'_>, scope: &Scope<'_>) -> bool
    ensures { OnTrue result (length parts.now ≡ length scope.now) }
{
    parts.as_slice().len() == scope.count() as usize
}

/// The form of a library, by its walk, of which it is the first.
fn library_form(
    alloc: Global,
    library: &Original,
    order: &[Original],
    version: Version,
) -> Result<Vec<u8>, Fail> {
    if order.is_empty() {
        return Err("a walk".into());
    }
    let scope = scope_of(alloc, order)?;
    let slots = slots_of(alloc, order)?;
    let places = places_of(alloc, slots.as_slice(), &scope)?;
    if scope.count() == 0 {
        return Err("a walk".into());
    }
    let words = own_words(alloc, &scope, &places)?;
    let list = list_of(alloc, &order[1..])?;
    if !library.object.kind.is_library() {
        return Err("a library".into());
    }
    if library.place % 2 != 0 {
        return Err("an even slot".into());
    }
    if words.len() != library.object.relocations.len() {
        return Err("a word for each relocation".into());
    }
    let (bytes, object) = (firm_bytes(library), &library.object);
    let (list, words) = (list.as_slice(), words.as_slice());
    Ok(form_library(
        alloc,
        bytes,
        object,
        library.place,
        STAMP,
        list,
        words,
        version,
    )?)
}

/// The forms of libraries of a set.
fn library_forms(
    alloc: Global,
    libraries: &[Original],
    set: &[Sample],
    version: Version,
) -> Result<Vec<Vec<u8>>, Fail> {
    let mut forms = Vec::new(alloc);
    for library in libraries {
        let order = walked(alloc, library.name, set)?;
        forms.push(library_form(alloc, library, &order, version)?)?;
    }
    Ok(forms)
}

/// The bytes at a program's places in its ordinary image.
fn start_fills(
    alloc: Global,
    relocations: &[Reloc],
    scope: &Scope<'_>,
    parts: &Parts<'_>,
    places: &Places,
    modules: &[Module],
) -> Result<Vec<Fill>, Fail>
    requires one_each { length places.now ≡ length scope.now }
    requires placed { (parts : List (List ℕ)) → ArePlaced places.now parts (objects scope.now) }
    ensures { IfOk result (λ fills. AreFills fills.items relocations.now) }
{
    if !is_one_each(parts, scope) {
        return Err("a part for each member".into());
    }
    let image = ordinary(alloc, scope, parts, places, modules)?;
    Ok(fills_of(alloc, relocations, Some(&image))?)
}

/// The conflict rows of a program over the forms of its libraries.
fn conflict_rows(
    alloc: Global,
    scope: &Scope<'_>,
    parts: &Parts<'_>,
    places: &Places,
    modules: &[Module],
) -> Result<Rows<ConflictRow>, Fail>
    requires one_each { length places.now ≡ length scope.now }
    requires accepted { All IsAccepted (objects scope.now) }
    requires placed { (parts : List (List ℕ)) → ArePlaced places.now parts (objects scope.now) }
{
    if !is_one_each(parts, scope) {
        return Err("a part for each member".into());
    }
    Ok(conflicts(alloc, scope, places, modules, parts)?)
}

/// The form of a program, by its walk, of which it is the first, and the forms of the others.
fn program_form<'a>(
    alloc: Global,
    program: &'a Original,
    order: &'a [Original],
    forms: &'a [Vec<u8>],
    version: Version,
) -> Result<Vec<u8>, Fail> {
    if order.is_empty() {
        return Err("a walk".into());
    }
    let scope = scope_of(alloc, order)?;
    let slots = slots_of(alloc, order)?;
    let places = places_of(alloc, slots.as_slice(), &scope)?;
    let modules = modules_of(alloc, order)?;
    let relocations = program.object.relocations.as_slice();
    let parts = originals_of(alloc, order)?;
    let fills = start_fills(
        alloc,
        relocations,
        &scope,
        &parts,
        &places,
        modules.as_slice(),
    )?;
    let parts = files_of(alloc, program, forms)?;
    let rows = conflict_rows(alloc, &scope, &parts, &places, modules.as_slice())?;
    let list = list_of(alloc, &order[1..])?;
    if !program.object.kind.is_program() {
        return Err("a program".into());
    }
    let (bytes, object) = (firm_bytes(program), &program.object);
    let (list, rows) = (list.as_slice(), rows.as_slice());
    Ok(form_program(alloc, bytes, object, list, &fills, rows, version)?)
}

/// The form of a file of a set.
fn form_of(alloc: Global, name: &str, set: &[Sample], version: Version) -> Result<Vec<u8>, Fail> {
    let order = walked(alloc, name, set)?;
    if order.is_empty() {
        return Err("a walk".into());
    }
    let file = &order[0];
    if file.object.kind.is_library() {
        return library_form(alloc, file, &order, version);
    }
    let forms = library_forms(alloc, &order[1..], set, version)?;
    program_form(alloc, file, &order, &forms, version)
}

/// The forms of a set of a number, under its names.
pub fn forms_of(alloc: Global, number: u64) -> Result<Vec<(String, Vec<u8>)>, Fail> {
    let set = set_of(alloc, number)?;
    let mut files = Vec::new(alloc);
    for sample in &set {
        let form = form_of(alloc, sample.name, &set, Version::Two)?;
        files.push((String::from_str(alloc, sample.name)?, form))?;
    }
    Ok(files)
}

/// Whether a form has this digest, or there is none.
fn is_wanted(alloc: Global, form: &[u8], wanted: &str) -> Result<bool, Fail> {
    let found = hex::encode(alloc, Sha256::digest(form))?;
    Ok(wanted == "-" || found.as_str() == wanted)
}

/// Whether a file of a set has its form in each version.
fn has_forms(alloc: Global, set: &[Sample], sample: &Sample) -> Result<bool, Fail> {
    let first = form_of(alloc, sample.name, set, Version::One)?;
    let second = form_of(alloc, sample.name, set, Version::Two)?;
    Ok(is_wanted(alloc, &first, sample.first)? && is_wanted(alloc, &second, sample.second)?)
}

/// Fails at the first file of a set that has another form.
fn check_set(alloc: Global, set: &'static str) -> Result<(), Fail> {
    let set = samples_of(alloc, set)?;
    for sample in &set {
        if !has_forms(alloc, &set, sample)? {
            return Err(sample.name.into());
        }
    }
    Ok(())
}

#[test]
fn forms_of_sets(rt: HostRuntime) -> Result<(), Fail> {
    for set in SETS.split("\n\n") {
        check_set(rt.alloc(), set)?;
    }
    Ok(())
}

/// Names of the set with two definers of one symbol, where in its form, and what stands there: the program's conflict table, of one row; the word at the library's place, its own binding.
const BYTES: &str = "\
q 1070: 00 20 30 00 30 00 00 00 01 00 00 00 00 00 00 00 00 00 10 00 30 00 00 00\n\
libz 1000: 00 10 20 00 30 00 00 00";

/// Whether the bytes of a line stand first where it says.
fn has_bytes(alloc: Global, set: &[Sample], line: &str) -> Result<bool, Fail> {
    let (place, bytes) = parts(line)?;
    let (name, at) = place.split_once(' ').ok_or("a name and an offset")?;
    let form = form_of(alloc, name, set, Version::Two)?;
    let at = usize::from_str_radix(at, 16)?;
    Ok(find(&form, &bytes_of(alloc, bytes)?) == Some(at))
}

#[test]
fn rows_and_words_in_forms(rt: HostRuntime) -> Result<(), Fail> {
    let set = set_of(rt.alloc(), 1)?;
    for line in BYTES.lines() {
        if !has_bytes(rt.alloc(), &set, line)? {
            return Err(line.into());
        }
    }
    Ok(())
}

/// What is in the way of a form, `-` where nothing is; the region, in hexadecimal; and the recipe.
const FAULTS: &str = "\
NoSpareTags 3000000000 3f00000000: library; spare 1; data 8\n\
- 3000000000 3f00000000: library; spare 2; data 8\n\
NoSpareTags 3000000000 3f00000000: program; spare 3; data 8\n\
- 3000000000 3f00000000: program; spare 4; data 8\n\
InRegion 500000 600000: program; data 8\n\
- 3000000000 3f00000000: program; data 8";

/// The fault that a word names, none where it is `-`.
fn fault_of(word: &str) -> Option<FormFault> {
    if word == "NoSpareTags" {
        Some(FormFault::NoSpareTags)
    } else if word == "InRegion" {
        Some(FormFault::InRegion)
    } else {
        None
    }
}

/// The addresses from the first of two numbers up to the second.
fn region_of(alloc: Global, text: &str) -> Result<Range, Fail> {
    let ends = numbers(alloc, text)?;
    let [start, end] = ends.as_slice() else {
        return Err("two numbers".into());
    };
    Ok(Range {
        start: *start,
        end: *end,
    })
}

/// Whether what is in the way of the form of a line is what it says.
fn has_fault(alloc: Global, line: &str) -> Result<bool, Fail> {
    let (row, recipe) = parts(line)?;
    let (wanted, region) = row.split_once(' ').ok_or("a fault and a region")?;
    let file = file_of(alloc, recipe)?;
    if file.len() > ORIGINAL {
        return Err("a short file".into());
    }
    let object = accept(alloc, &file)?;
    let region = region_of(alloc, region)?;
    Ok(check_form(&object, region).err() == fault_of(wanted))
}

#[test]
fn faults_of_forms(rt: HostRuntime) -> Result<(), Fail> {
    for line in FAULTS.lines() {
        if !has_fault(rt.alloc(), line)? {
            return Err(line.into());
        }
    }
    Ok(())
}
