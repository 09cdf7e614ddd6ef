// Scripts of runs. `#` begins a case, over a folder without files. `put NAME`, with a recipe if it is not that of the example, `hex` and `text` give a name a file, `all` gives each example its own, `many` gives so many empty ones, `fields` and `length` change one; `input` is the input of the next runs, `fails` the calls of theirs that fail, `now` their moment, and `most` how many bytes the output takes in a call. `$` runs words, in which `~` is a blank, `lines` shows the first lines alone, `file` whether the text is a recipe's file; `holds` looks at a file, `stops` stops a run at each moment, `every` lets each of its calls fail, `weaves` tries scripts of weaves. Behind a `|` stands each line of what a line comes to, behind a `<` what one begins with: what is written, how the run ends, and whether it leaves other files.
use crate::session::Session;
use std::alloc::Global;
use std::test::Fail;

/// Loads of the examples, the first cause of a walk, programs that need 255 and 256 others, faults of each call, and words that are no command.
const LOADS: &str = "\
# loads of the examples\n\
all\n\
$ --load one\n\
|slow\n\
|object 0000000000400000 0000000000501000 one\n\
|entry 0000000000400000\n\
|word 0000000000500000 0000000000500008\n\
|word 0000000000500008 0000000000000007\n\
|end\n\
|Done\n\
$ --load onep\n\
|slow\n\
|object 0000000000400000 0000000000501000 onep\n\
|entry 0000000000400000\n\
|word 0000000000500000 0000000000500008\n\
|word 0000000000500008 0000000000000007\n\
|end\n\
|Done\n\
$ --load pk\n\
|slow\n\
|object 0000000000400000 0000000000501000 pk\n\
|object 0000003000000000 0000003000101000 libpk\n\
|entry 0000000000400000\n\
|word 0000003000100000 0000003000100010\n\
|word 0000003000100008 0000003000100018\n\
|word 0000003000100200 0000003000100000\n\
|end\n\
|Done\n\
$ --load p\n\
|slow\n\
|object 0000000000400000 0000000000501000 p\n\
|object 0000003000000000 0000003000101000 liba\n\
|entry 0000000000400000\n\
|word 0000000000500000 0000003000100000\n\
|word 0000003000100000 0000000000001111\n\
|end\n\
|Done\n\
$ --load r\n\
|slow\n\
|object 0000000000400000 0000000000501000 r\n\
|object 0000003000000000 0000003000101000 liby\n\
|object 0000003000101000 0000003000202000 libd\n\
|object 0000003000202000 0000003000303000 libx\n\
|entry 0000000000400000\n\
|word 0000000000500008 0000003000100000\n\
|word 0000003000100000 000000000000bbbb\n\
|word 0000003000201000 0000003000100000\n\
|word 0000003000302000 000000000000aaaa\n\
|end\n\
|Done\n\
$ --load w\n\
|slow\n\
|object 0000000000400000 0000000000501000 w\n\
|entry 0000000000400000\n\
|word 0000000000500000 0000000000000008\n\
|end\n\
|Done\n\
$ --load c\n\
|slow\n\
|object 0000000000400000 0000000000501000 c\n\
|object 0000003000000000 0000003000101000 libm\n\
|object 0000003000101000 0000003000202000 libn\n\
|entry 0000000000400000\n\
|word 0000000000500000 0000003000100004\n\
|word 0000003000100000 0000003000201000\n\
|word 0000003000201000 0000003000100000\n\
|end\n\
|Done\n\
$ --load v\n\
|slow\n\
|object 0000000000400000 0000000000501000 v\n\
|object 0000003000000000 0000003000101000 libv\n\
|entry 0000000000400000\n\
|word 0000000000500000 0000003000100000\n\
|word 0000000000500008 0000003000100008\n\
|word 0000000000500010 0000003000100000\n\
|word 0000003000100000 0000000000000001\n\
|word 0000003000100008 0000000000000002\n\
|end\n\
|Done\n\
$ --load t\n\
|slow\n\
|object 0000000000400000 0000000000501000 t\n\
|object 0000003000000000 0000003000101000 libt\n\
|object 0000003000101000 0000003000202000 libu\n\
|tls 1 0000000000000008 t\n\
|tls 2 0000000000000040 libt\n\
|tls 3 0000000000000045 libu\n\
|entry 0000000000400000\n\
|word 0000003000100000 0000000000000002\n\
|word 0000003000100008 0000000000000004\n\
|word 0000003000100010 ffffffffffffffc4\n\
|word 0000003000201000 0000000000000003\n\
|word 0000003000201008 ffffffffffffffbe\n\
|end\n\
|Done\n\
$ --load k\n\
|slow\n\
|object 0000000000400000 0000000000501000 k\n\
|object 0000003000000000 0000003000101000 libk\n\
|entry 0000000000400000\n\
|word 0000000000500000 0000000000500010\n\
|word 0000000000500008 0000003000100000\n\
|word 0000003000100000 0000000000000005\n\
|word 0000003000100008 0000000000500010\n\
|end\n\
|Done\n\
$ --load y\n\
|slow\n\
|object 0000000000400000 0000000000501000 y\n\
|object 0000003000000000 0000003000101000 libsy\n\
|entry 0000000000400000\n\
|word 0000003000100008 0000003000100000\n\
|end\n\
|Done\n\
$ --load tool\n\
|slow\n\
|object 0000000000400000 0000000000501000 tool\n\
|object 0000003000000000 0000003000101000 libtext.so.2\n\
|object 0000003000101000 0000003000202000 libsys.so.1\n\
|tls 1 0000000000000008 libsys.so.1\n\
|entry 0000000000500000\n\
|word 0000000000400200 6c2f343662696c2f\n\
|word 0000000000400208 2d78756e696c2d64\n\
|word 0000000000400210 732e34362d363878\n\
|word 0000000000400218 0000000000322e6f\n\
|word 0000000000500000 0000003000100010\n\
|word 0000000000500008 0000003000201010\n\
|word 0000000000500010 000000000000002a\n\
|word 0000003000100000 0000003000201010\n\
|word 0000003000100008 0000003000100010\n\
|word 0000003000201008 fffffffffffffff8\n\
|word 0000003000201018 000000000000002a\n\
|end\n\
|Done\n\
$ --load a\n\
|refused NotThere a\n\
|Refused\n\
$ --load b1\n\
|refused Refused b1 24\n\
|Refused\n\
$ --load b2\n\
|refused Refused b2 25\n\
|Refused\n\
$ --load b3\n\
|refused Refused b3 23 37\n\
|Refused\n\
$ --load liba\n\
|refused NotProgram liba\n\
|Refused\n\
$ --load big\n\
|refused TlsTooLarge\n\
|Refused\n\
$ --load s\n\
|refused Undefined s g\n\
|Refused\n\
$ --load a/b\n\
|refused BadName\n\
|Refused\n\
$ --load a~b\n\
|refused BadName\n\
|Refused\n\
$ --load .prelink.cache\n\
|refused BadName\n\
|Refused\n\
# the first cause of a walk\n\
put lacks program; needs none; data 8; ref g global object; rel abs64 0 g 0\n\
put libbad library; data 8; rel tlsdesc 0 - 0\n\
put bad program; needs libbad; needs none\n\
put needed program; needs libback\n\
put libback library; needs needed\n\
put second program; needs libsecond\n\
put libsecond library; needs plain\n\
put plain static\n\
put huge library; data 8\n\
put storage program; needs huge; data 8; tls 0 0 40000001 1\n\
put room program; needs huge; data 8; ref g global object; rel abs64 0 g 0\n\
put escaped program; data 8; ref a\\b\"~! global func; rel abs64 0 a\\b\"~! 0\n\
put tables program; data 10; ref f global func; ref g global func; rel jumpslot 0 f 0; rel globdat 8 g 0\n\
put libref library; data 8; ref g global object; rel abs64 0 g 0\n\
put later program; needs libref\n\
put weak program; data 8; ref v weak tls; rel tpoff 0 v 0\n\
put libf library; data 8; def f global func 0 8\n\
put module program; needs libf; data 8; ref f global func; rel dtpoff 0 f 0\n\
put own program; data 8; rel dtpmod 0 - 0\n\
put libabs library; data 8; def a global abs 5 8\n\
put copy program; needs libabs; data 8; def a global object 0 8; rel copy 0 a 0\n\
put first program; needs libabs; data 10; def a global object 0 8; rel copy 0 a 0; ref g global object; rel globdat 8 g 0\n\
put libtls library; data 8; tls 0 0 8 8; def a global tls 0 8\n\
put variable program; needs libtls; data 8; ref a global object; rel abs64 0 a 0\n\
put object program; data 8; def a global object 0 8; rel dtpoff 0 a 0\n\
put libshort library; data 8; def o global object 0 10\n\
put outside program; needs libshort; bss 10; def o global object 0 10; rel copy 0 o 0\n\
put libe library; data 10; word 0 33; word 8 44; def x global object 0 8\n\
put short program; needs libe; bss 10; def x global object 0 10; rel copy 0 x 0\n\
put libnumber library; data 8; def o global abs 10 0\n\
put words program; needs libnumber; data 20; ref o global object; ref g weak object; rel abs64 0 o -1; rel dtpoff 8 - 4; rel globdat 10 g 0; rel none 18 - 0; tls 0 0 8 8\n\
fields huge a0 8 1000000000\n\
$ --load short\n\
|slow\n\
|object 0000000000400000 0000000000501000 short\n\
|object 0000003000000000 0000003000101000 libe\n\
|entry 0000000000400000\n\
|word 0000000000500000 0000000000000033\n\
|word 0000003000100000 0000000000000033\n\
|word 0000003000100008 0000000000000044\n\
|end\n\
|Done\n\
$ --load words\n\
|slow\n\
|object 0000000000400000 0000000000501000 words\n\
|object 0000003000000000 0000003000101000 libnumber\n\
|tls 1 0000000000000008 words\n\
|entry 0000000000400000\n\
|word 0000000000500000 000000000000000f\n\
|word 0000000000500008 0000000000000004\n\
|end\n\
|Done\n\
$ --load lacks\n\
|refused NotThere none\n\
|Refused\n\
$ --load bad\n\
|refused Refused libbad 23 36\n\
|Refused\n\
$ --load needed\n\
|refused NeededIsProgram needed\n\
|Refused\n\
$ --load second\n\
|refused NeededIsProgram plain\n\
|Refused\n\
$ --load storage\n\
|refused TlsTooLarge\n\
|Refused\n\
$ --load room\n\
|refused NoPlace huge\n\
|Refused\n\
$ --load escaped\n\
|refused Undefined escaped a\\x5cb\"~!\n\
|Refused\n\
$ --load tables\n\
|refused Undefined tables g\n\
|Refused\n\
$ --load later\n\
|refused Undefined libref g\n\
|Refused\n\
$ --load weak\n\
|refused UndefinedTls weak v\n\
|Refused\n\
$ --load module\n\
|refused TlsMismatch module f\n\
|Refused\n\
$ --load own\n\
|refused TlsMismatch own -\n\
|Refused\n\
$ --load copy\n\
|refused CopyOutside copy a\n\
|Refused\n\
$ --load first\n\
|refused CopyOutside first a\n\
|Refused\n\
$ --load variable\n\
|refused TlsMismatch variable a\n\
|Refused\n\
$ --load object\n\
|refused TlsMismatch object a\n\
|Refused\n\
$ --load outside\n\
|refused CopyOutside outside o\n\
|Refused\n\
# programs that need 255 and 256 others\n\
put many program; needs l0; needs l1; needs l2; needs l3; needs l4; needs l5; needs l6; needs l7; needs l8; needs l9; needs l10; needs l11; needs l12; needs l13; needs l14; needs l15; needs l16; needs l17; needs l18; needs l19; needs l20; needs l21; needs l22; needs l23; needs l24; needs l25; needs l26; needs l27; needs l28; needs l29; needs l30; needs l31; needs l32; needs l33; needs l34; needs l35; needs l36; needs l37; needs l38; needs l39; needs l40; needs l41; needs l42; needs l43; needs l44; needs l45; needs l46; needs l47; needs l48; needs l49; needs l50; needs l51; needs l52; needs l53; needs l54; needs l55; needs l56; needs l57; needs l58; needs l59; needs l60; needs l61; needs l62; needs l63; needs l64; needs l65; needs l66; needs l67; needs l68; needs l69; needs l70; needs l71; needs l72; needs l73; needs l74; needs l75; needs l76; needs l77; needs l78; needs l79; needs l80; needs l81; needs l82; needs l83; needs l84; needs l85; needs l86; needs l87; needs l88; needs l89; needs l90; needs l91; needs l92; needs l93; needs l94; needs l95; needs l96; needs l97; needs l98; needs l99; needs l100; needs l101; needs l102; needs l103; needs l104; needs l105; needs l106; needs l107; needs l108; needs l109; needs l110; needs l111; needs l112; needs l113; needs l114; needs l115; needs l116; needs l117; needs l118; needs l119; needs l120; needs l121; needs l122; needs l123; needs l124; needs l125; needs l126; needs l127; needs l128; needs l129; needs l130; needs l131; needs l132; needs l133; needs l134; needs l135; needs l136; needs l137; needs l138; needs l139; needs l140; needs l141; needs l142; needs l143; needs l144; needs l145; needs l146; needs l147; needs l148; needs l149; needs l150; needs l151; needs l152; needs l153; needs l154; needs l155; needs l156; needs l157; needs l158; needs l159; needs l160; needs l161; needs l162; needs l163; needs l164; needs l165; needs l166; needs l167; needs l168; needs l169; needs l170; needs l171; needs l172; needs l173; needs l174; needs l175; needs l176; needs l177; needs l178; needs l179; needs l180; needs l181; needs l182; needs l183; needs l184; needs l185; needs l186; needs l187; needs l188; needs l189; needs l190; needs l191; needs l192; needs l193; needs l194; needs l195; needs l196; needs l197; needs l198; needs l199; needs l200; needs l201; needs l202; needs l203; needs l204; needs l205; needs l206; needs l207; needs l208; needs l209; needs l210; needs l211; needs l212; needs l213; needs l214; needs l215; needs l216; needs l217; needs l218; needs l219; needs l220; needs l221; needs l222; needs l223; needs l224; needs l225; needs l226; needs l227; needs l228; needs l229; needs l230; needs l231; needs l232; needs l233; needs l234; needs l235; needs l236; needs l237; needs l238; needs l239; needs l240; needs l241; needs l242; needs l243; needs l244; needs l245; needs l246; needs l247; needs l248; needs l249; needs l250; needs l251; needs l252; needs l253; needs l254\n\
$ --load many\n\
|refused NotThere l0\n\
|Refused\n\
put many program; needs l0; needs l1; needs l2; needs l3; needs l4; needs l5; needs l6; needs l7; needs l8; needs l9; needs l10; needs l11; needs l12; needs l13; needs l14; needs l15; needs l16; needs l17; needs l18; needs l19; needs l20; needs l21; needs l22; needs l23; needs l24; needs l25; needs l26; needs l27; needs l28; needs l29; needs l30; needs l31; needs l32; needs l33; needs l34; needs l35; needs l36; needs l37; needs l38; needs l39; needs l40; needs l41; needs l42; needs l43; needs l44; needs l45; needs l46; needs l47; needs l48; needs l49; needs l50; needs l51; needs l52; needs l53; needs l54; needs l55; needs l56; needs l57; needs l58; needs l59; needs l60; needs l61; needs l62; needs l63; needs l64; needs l65; needs l66; needs l67; needs l68; needs l69; needs l70; needs l71; needs l72; needs l73; needs l74; needs l75; needs l76; needs l77; needs l78; needs l79; needs l80; needs l81; needs l82; needs l83; needs l84; needs l85; needs l86; needs l87; needs l88; needs l89; needs l90; needs l91; needs l92; needs l93; needs l94; needs l95; needs l96; needs l97; needs l98; needs l99; needs l100; needs l101; needs l102; needs l103; needs l104; needs l105; needs l106; needs l107; needs l108; needs l109; needs l110; needs l111; needs l112; needs l113; needs l114; needs l115; needs l116; needs l117; needs l118; needs l119; needs l120; needs l121; needs l122; needs l123; needs l124; needs l125; needs l126; needs l127; needs l128; needs l129; needs l130; needs l131; needs l132; needs l133; needs l134; needs l135; needs l136; needs l137; needs l138; needs l139; needs l140; needs l141; needs l142; needs l143; needs l144; needs l145; needs l146; needs l147; needs l148; needs l149; needs l150; needs l151; needs l152; needs l153; needs l154; needs l155; needs l156; needs l157; needs l158; needs l159; needs l160; needs l161; needs l162; needs l163; needs l164; needs l165; needs l166; needs l167; needs l168; needs l169; needs l170; needs l171; needs l172; needs l173; needs l174; needs l175; needs l176; needs l177; needs l178; needs l179; needs l180; needs l181; needs l182; needs l183; needs l184; needs l185; needs l186; needs l187; needs l188; needs l189; needs l190; needs l191; needs l192; needs l193; needs l194; needs l195; needs l196; needs l197; needs l198; needs l199; needs l200; needs l201; needs l202; needs l203; needs l204; needs l205; needs l206; needs l207; needs l208; needs l209; needs l210; needs l211; needs l212; needs l213; needs l214; needs l215; needs l216; needs l217; needs l218; needs l219; needs l220; needs l221; needs l222; needs l223; needs l224; needs l225; needs l226; needs l227; needs l228; needs l229; needs l230; needs l231; needs l232; needs l233; needs l234; needs l235; needs l236; needs l237; needs l238; needs l239; needs l240; needs l241; needs l242; needs l243; needs l244; needs l245; needs l246; needs l247; needs l248; needs l249; needs l250; needs l251; needs l252; needs l253; needs l254; needs l255\n\
$ --load many\n\
|refused TooMany l255\n\
|Refused\n\
# each call of a load fails\n\
put liba\n\
put p\n\
fails folder 0\n\
fails output\n\
most 4096\n\
$ --load p\n\
|DiskFault\n\
fails folder 1\n\
fails output\n\
most 4096\n\
$ --load p\n\
|DiskFault\n\
fails folder\n\
fails output 0\n\
most 4096\n\
$ --load p\n\
|WriteFault\n\
fails folder\n\
fails output 1\n\
most 4096\n\
$ --load p\n\
|slow\n\
|object 0000000000400000 0000000000501000 p\n\
|object 0000003000000000 0000003000101000 liba\n\
|entry 0000000000400000\n\
|WriteFault\n\
fails folder\n\
fails output 2\n\
most 4096\n\
$ --load p\n\
|slow\n\
|object 0000000000400000 0000000000501000 p\n\
|object 0000003000000000 0000003000101000 liba\n\
|entry 0000000000400000\n\
|word 0000000000500000 0000003000100000\n\
|word 0000003000100000 0000000000001111\n\
|WriteFault\n\
fails folder 2\n\
fails output 3\n\
most 4096\n\
$ --load p\n\
|slow\n\
|object 0000000000400000 0000000000501000 p\n\
|object 0000003000000000 0000003000101000 liba\n\
|entry 0000000000400000\n\
|word 0000000000500000 0000003000100000\n\
|word 0000003000100000 0000000000001111\n\
|end\n\
|Done\n\
fails folder\n\
fails output 1\n\
most 10\n\
$ --load p\n\
|slow\n\
|objec (no end)\n\
|WriteFault\n\
# words that are no command: no call of the folder is made\n\
fails folder 0\n\
$\n\
|usage: prelink MODE [OPTIONS] [NAME..]\n\
|Usage\n\
$ --load\n\
|usage: prelink MODE [OPTIONS] [NAME..]\n\
|Usage\n\
$ --load st st\n\
|usage: prelink MODE [OPTIONS] [NAME..]\n\
|Usage\n\
$ --load -st\n\
|usage: prelink MODE [OPTIONS] [NAME..]\n\
|Usage\n\
$ --loads st\n\
|usage: prelink MODE [OPTIONS] [NAME..]\n\
|Usage\n\
$ --make\n\
|usage: prelink MODE [OPTIONS] [NAME..]\n\
|Usage\n\
$ --make st st\n\
|usage: prelink MODE [OPTIONS] [NAME..]\n\
|Usage\n\
$ --make -st\n\
|usage: prelink MODE [OPTIONS] [NAME..]\n\
|Usage\n\
$ -a --load p\n\
|usage: prelink MODE [OPTIONS] [NAME..]\n\
|Usage\n\
$ -p x\n\
|usage: prelink MODE [OPTIONS] [NAME..]\n\
|Usage\n\
$ --load p --busy 0-1\n\
|usage: prelink MODE [OPTIONS] [NAME..]\n\
|Usage\n\
$ --weave p\n\
|usage: prelink MODE [OPTIONS] [NAME..]\n\
|Usage\n\
$ --order\n\
|usage: prelink MODE [OPTIONS] [NAME..]\n\
|Usage\n\
$ --fix\n\
|usage: prelink MODE [OPTIONS] [NAME..]\n\
|Usage\n\
$ --unfix p --policy lowest\n\
|usage: prelink MODE [OPTIONS] [NAME..]\n\
|Usage";

/// Loads of files with changed words, and of another length.
const CHANGED: &str = "\
# changed words of a file\n\
put x static; data 10; word 8 7\n\
$ --load x\n\
|slow\n\
|object 0000000000400000 0000000000501000 x\n\
|entry 0000000000400000\n\
|word 0000000000500008 0000000000000007\n\
|end\n\
|Done\n\
put x static; data 10; word 8 7\n\
fields x 38 8 3000400400003 98 8 4 a0 8 4 b0 8 600000001 b8 8 1004 c0 8 500004 d0 8 4 d8 8 4 1000 8 8877665544332211 1028 8 200000000 1040 8 1002 1048 8 2\n\
$ --load x\n\
|slow\n\
|object 0000000000400000 0000000000501000 x\n\
|entry 0000000000400000\n\
|word 0000000000500000 8877665500002211\n\
|end\n\
|Done\n\
put x static; data 10; word 8 7\n\
fields x 38 8 3000400400003 b0 8 600000001 b8 8 1000 c0 8 600000\n\
$ --load x\n\
|slow\n\
|object 0000000000400000 0000000000600000 x\n\
|entry 0000000000400000\n\
|word 0000000000500008 0000000000000007\n\
|end\n\
|Done\n\
put x static; data 10; word 8 7\n\
fields x 38 8 3000400400003 b0 8 7\n\
$ --load x\n\
|slow\n\
|object 0000000000400000 0000000000501000 x\n\
|tls 1 0000000000000000 x\n\
|entry 0000000000400000\n\
|word 0000000000500008 0000000000000007\n\
|end\n\
|Done\n\
put x static; data 10; word 8 7\n\
fields x 0 8 0\n\
$ --load x\n\
|refused Refused x 1\n\
|Refused\n\
put x static; data 10; word 8 7\n\
fields x 78 8 600000002\n\
$ --load x\n\
|refused Refused x 9\n\
|Refused\n\
put x static; data 10; word 8 7\n\
fields x 38 8 3000000400002\n\
$ --load x\n\
|refused Refused x 8\n\
|Refused\n\
put x library; data 8; rel relative 0 - 0\n\
fields x 448 8 12345\n\
$ --load x\n\
|refused Refused x 10 74565\n\
|Refused\n\
put x program; data 8; rel relative 0 - 0\n\
fields x 448 8 12345\n\
$ --load x\n\
|refused Refused x 10 74565\n\
|Refused\n\
put x library; data 8; rel relative 0 - 0\n\
fields x 448 8 ffffffffffffffff\n\
$ --load x\n\
|refused Refused x 10 18446744073709551615\n\
|Refused\n\
put x program; data 8; rel relative 0 - 0\n\
fields x 448 8 ffffffffffffffff\n\
$ --load x\n\
|refused Refused x 10 18446744073709551615\n\
|Refused\n\
put x library; data 8; rel relative 0 - 0\n\
fields x 468 8 a\n\
$ --load x\n\
|refused Refused x 11 10\n\
|Refused\n\
put x program; data 8; rel relative 0 - 0\n\
fields x 468 8 a\n\
$ --load x\n\
|refused Refused x 11 10\n\
|Refused\n\
put x library; data 8; rel relative 0 - 0\n\
fields x 438 8 25\n\
$ --load x\n\
|refused Refused x 23 37\n\
|Refused\n\
put x program; data 8; rel relative 0 - 0\n\
fields x 438 8 25\n\
$ --load x\n\
|refused Refused x 23 37\n\
|Refused\n\
put x library; data 8; rel relative 0 - 0\n\
fields x 438 8 100000000\n\
$ --load x\n\
|refused Refused x 23 0\n\
|Refused\n\
put x program; data 8; rel relative 0 - 0\n\
fields x 438 8 100000000\n\
$ --load x\n\
|refused Refused x 23 0\n\
|Refused\n\
put x library; data 8; rel relative 0 - 0\n\
fields x 430 8 10000000\n\
$ --load x\n\
|refused Refused x 24\n\
|Refused\n\
put x program; data 8; rel relative 0 - 0\n\
fields x 430 8 10000000\n\
$ --load x\n\
|refused Refused x 24\n\
|Refused\n\
put x library; data 8; rel relative 0 - 0\n\
fields x d0 8 88\n\
$ --load x\n\
|refused Refused x 9\n\
|Refused\n\
put x program; data 8; rel relative 0 - 0\n\
fields x d0 8 88\n\
$ --load x\n\
|refused Refused x 9\n\
|Refused\n\
put x library; data 8; rel relative 0 - 0\n\
$ --load x\n\
|refused NotProgram x\n\
|Refused\n\
put x library; data 8; tls 0 0 8 8\n\
$ --load x\n\
|refused NotProgram x\n\
|Refused\n\
# the length of a file\n\
put x static; data 10; word 8 7\n\
length x 67108864\n\
$ --load x\n\
|slow\n\
|object 0000000000400000 0000000000501000 x\n\
|entry 0000000000400000\n\
|word 0000000000500008 0000000000000007\n\
|end\n\
|Done\n\
length x 67108865\n\
$ --load x\n\
|refused Refused x 30\n\
|Refused\n\
length x 4391\n\
$ --load x\n\
|refused Refused x 5\n\
|Refused\n\
length x 0\n\
$ --load x\n\
|refused Refused x 1\n\
|Refused";

/// Busy addresses and policies; the cache.
const PLACES: &str = "\
# busy addresses, and policies\n\
all\n\
$ --load p --busy 3000000000-3000001000\n\
|slow\n\
|object 0000000000400000 0000000000501000 p\n\
|object 0000003000001000 0000003000102000 liba\n\
|entry 0000000000400000\n\
|word 0000000000500000 0000003000101000\n\
|word 0000003000101000 0000000000001111\n\
|end\n\
|Done\n\
$ --busy=3000000000-3000001000 --policy lowest --load=p --\n\
|slow\n\
|object 0000000000400000 0000000000501000 p\n\
|object 0000003000001000 0000003000102000 liba\n\
|entry 0000000000400000\n\
|word 0000000000500000 0000003000101000\n\
|word 0000003000101000 0000000000001111\n\
|end\n\
|Done\n\
$ --load p --busy 0-1000\n\
|slow\n\
|object 0000000000400000 0000000000501000 p\n\
|object 0000003000000000 0000003000101000 liba\n\
|entry 0000000000400000\n\
|word 0000000000500000 0000003000100000\n\
|word 0000003000100000 0000000000001111\n\
|end\n\
|Done\n\
$ --load p --policy highest\n\
|slow\n\
|object 0000000000400000 0000000000501000 p\n\
|object 0000003fffeff000 0000004000000000 liba\n\
|entry 0000000000400000\n\
|word 0000000000500000 0000003ffffff000\n\
|word 0000003ffffff000 0000000000001111\n\
|end\n\
|Done\n\
$ --policy=highest --busy=3fff000000-4000000000 --load=p\n\
|slow\n\
|object 0000000000400000 0000000000501000 p\n\
|object 0000003ffeeff000 0000003fff000000 liba\n\
|entry 0000000000400000\n\
|word 0000000000500000 0000003ffefff000\n\
|word 0000003ffefff000 0000000000001111\n\
|end\n\
|Done\n\
$ --load p --policy seeded:0\n\
|slow\n\
|object 0000000000400000 0000000000501000 p\n\
|object 00000036ca9ad000 00000036caaae000 liba\n\
|entry 0000000000400000\n\
|word 0000000000500000 00000036caaad000\n\
|word 00000036caaad000 0000000000001111\n\
|end\n\
|Done\n\
$ --load p --policy seeded:007\n\
|slow\n\
|object 0000000000400000 0000000000501000 p\n\
|object 0000003c9335b000 0000003c9345c000 liba\n\
|entry 0000000000400000\n\
|word 0000000000500000 0000003c9345b000\n\
|word 0000003c9345b000 0000000000001111\n\
|end\n\
|Done\n\
$ --load p --busy 3000000000-4000000000\n\
|refused NoPlace liba\n\
|Refused\n\
$ --load p --busy 3000001000-4000000000 --policy seeded:1\n\
|refused NoPlace liba\n\
|Refused\n\
$ --load liba --policy highest\n\
|refused NotProgram liba\n\
|Refused\n\
$ --load=\n\
|refused BadName\n\
|Refused\n\
# the cache\n\
$ -p\n\
|last 0\n\
|Done\n\
hex .prelink.cache 50 4c 43 41 43 48 45 31 e8 03 00 00 01 00 00 00 04 6c 69 62 61 00 00 00 00 30 00 00 00 00 10 10 00 00 00 00 00\n\
$ --print-cache\n\
|last 1000\n\
|slot 0000003000000000 0000003000101000 liba\n\
|Done\n\
text .prelink.cache abc\n\
$ -p\n\
|refused BadCache\n\
|Refused\n\
hex .prelink.cache 50 4c 43 41 43 48 45 31 e8 03 00 00 01 00 00 00 04 6c 69 62 61 00 00 00 00 30 00 00 00 00 10 10 00 00 00 00\n\
$ -p\n\
|refused BadCache\n\
|Refused\n\
hex .prelink.cache 50 4c 43 41 43 48 45 31 e8 03 00 00 01 00 00 00 04 6c 69 62 61 00 00 00 00 30 00 00 00 00 10 10 00 00 00 00 00\n\
fails folder 0\n\
$ -p\n\
|DiskFault\n\
fails folder\n\
fails output 1\n\
most 10\n\
$ -p\n\
|last 1000\n\
|WriteFault";

/// Position-independent programs.
const PIES: &str = "\
# a position-independent program\n\
put liba\n\
put pi\n\
$ --load pi\n\
|slow\n\
|object 0000002000000000 0000002000101000 pi\n\
|object 0000003000000000 0000003000101000 liba\n\
|entry 0000002000100000\n\
|word 0000002000100000 0000003000100000\n\
|word 0000002000100008 0000002000100000\n\
|word 0000003000100000 0000000000001111\n\
|end\n\
|Done\n\
$ --load pi --busy 2000000000-2f00000000\n\
|slow\n\
|object 0000002000000000 0000002000101000 pi\n\
|object 0000003000000000 0000003000101000 liba\n\
|entry 0000002000100000\n\
|word 0000002000100000 0000003000100000\n\
|word 0000002000100008 0000002000100000\n\
|word 0000003000100000 0000000000001111\n\
|end\n\
|Done\n\
$ --load pi --policy highest\n\
|slow\n\
|object 0000002effeff000 0000002f00000000 pi\n\
|object 0000003fffeff000 0000004000000000 liba\n\
|entry 0000002efffff000\n\
|word 0000002efffff000 0000003ffffff000\n\
|word 0000002efffff008 0000002efffff000\n\
|word 0000003ffffff000 0000000000001111\n\
|end\n\
|Done\n\
$ -a -n -v\n\
|prelinked liba slot 0000003000000000 stamp 1000\n\
|skip pi Refused pi 31\n\
|done 1 prelinked 0 current 1 skipped\n\
|Done\n\
$ --fix liba\n\
|refused NotPie liba\n\
|Refused\n\
$ --fix a/b\n\
|refused BadName\n\
|Refused\n\
$ --fix a\n\
|refused NotThere a\n\
|Refused\n\
$ --unfix pi\n\
|refused NotFixed pi\n\
|Refused\n\
$ --fix pi\n\
|fixed pi 0000002000000000\n\
|Done, with other files\n\
$ --fix pi\n\
|refused NotPie pi\n\
|Refused\n\
$ --load pi\n\
|slow\n\
|object 0000002000000000 0000002000101000 pi\n\
|object 0000003000000000 0000003000101000 liba\n\
|entry 0000002000100000\n\
|word 0000002000100000 0000003000100000\n\
|word 0000002000100008 0000002000100000\n\
|word 0000003000100000 0000000000001111\n\
|end\n\
|Done\n\
$ -a -v\n\
|prelinked liba slot 0000003000000000 stamp 1000\n\
|prelinked pi conflicts 0\n\
|done 2 prelinked 0 current 0 skipped\n\
|Done, with other files\n\
$ --load pi\n\
|fast\n\
|object 0000002000000000 0000002000101000 pi\n\
|object 0000003000000000 0000003000101000 liba\n\
|entry 0000002000100000\n\
|word 0000002000100000 0000003000100000\n\
|word 0000002000100008 0000002000100000\n\
|word 0000003000100000 0000000000001111\n\
|end\n\
|Done\n\
$ --unfix pi\n\
|unfixed pi\n\
|Done, with other files\n\
$ --unfix pi\n\
|refused NotFixed pi\n\
|Refused\n\
$ --load pi\n\
|slow\n\
|object 0000002000000000 0000002000101000 pi\n\
|object 0000003000000000 0000003000101000 liba\n\
|entry 0000002000100000\n\
|word 0000002000100000 0000003000100000\n\
|word 0000002000100008 0000002000100000\n\
|word 0000003000100000 0000000000001111\n\
|end\n\
|Done\n\
holds pi pi\n\
|pi is the file of pi\n\
# packed words of one\n\
put pr\n\
$ --load pr\n\
|slow\n\
|object 0000002000000000 0000002000101000 pr\n\
|entry 0000000000000000\n\
|word 0000002000100000 0000002000100008\n\
|end\n\
|Done\n\
$ --fix pr --policy lowest\n\
|fixed pr 0000002000000000\n\
|Done, with other files\n\
$ --load pr\n\
|slow\n\
|object 0000002000000000 0000002000101000 pr\n\
|entry 0000000000000000\n\
|word 0000002000100000 0000002000100008\n\
|end\n\
|Done\n\
$ --unfix pr\n\
|unfixed pr\n\
|Done, with other files\n\
holds pr pr\n\
|pr is the file of pr\n\
# a weave of one\n\
put liba\n\
put pi\n\
input lines load pi; open 0; open 0\n\
$ --weave\n\
|loader 0\n\
|slow\n\
|object 0000002000000000 0000002000101000 pi\n\
|object 0000003000000000 0000003000101000 liba\n\
|entry 0000002000100000\n\
|word 0000002000100000 0000003000100000\n\
|word 0000002000100008 0000002000100000\n\
|word 0000003000100000 0000000000001111\n\
|end\n\
|weave end\n\
|Done";

/// Files that are made, with calls that fail, and the first cause of a recipe.
const MAKING: &str = "\
# a file is made\n\
input recipe static; data 10; word 8 7\n\
$ --make st\n\
|made st\n\
|Done, with other files\n\
fails input\n\
fails output\n\
$ --load st\n\
|slow\n\
|object 0000000000400000 0000000000501000 st\n\
|entry 0000000000400000\n\
|word 0000000000500008 0000000000000007\n\
|end\n\
|Done\n\
# a file is made, where others are\n\
text st\n\
text x\n\
input recipe static; data 10; word 8 7\n\
$ --make st\n\
|made st\n\
|Done, with other files\n\
fails input\n\
fails output\n\
$ --load st\n\
|slow\n\
|object 0000000000400000 0000000000501000 st\n\
|entry 0000000000400000\n\
|word 0000000000500008 0000000000000007\n\
|end\n\
|Done\n\
# a file is made, and the input fails\n\
input recipe static; data 10; word 8 7\n\
fails input 0\n\
$ --make st\n\
|ReadFault\n\
fails input\n\
fails output\n\
$ --load st\n\
|refused NotThere st\n\
|Refused\n\
# a file is made, and the input fails\n\
input recipe static; data 10; word 8 7\n\
fails input 1\n\
$ --make st\n\
|ReadFault\n\
fails input\n\
fails output\n\
$ --load st\n\
|refused NotThere st\n\
|Refused\n\
# a file is made, and the output fails\n\
input recipe static; data 10; word 8 7\n\
fails output 0\n\
$ --make st\n\
|WriteFault, with other files\n\
fails input\n\
fails output\n\
$ --load st\n\
|slow\n\
|object 0000000000400000 0000000000501000 st\n\
|entry 0000000000400000\n\
|word 0000000000500008 0000000000000007\n\
|end\n\
|Done\n\
# each call of making a file fails\n\
input recipe static; data 10; word 8 7\n\
every --make st\n\
|each call fails: folder true, input true, output true\n\
# the first cause of a recipe\n\
input recipe library; needs\n\
$ --make z\n\
|refused Recipe 2 1\n\
|Refused\n\
input none\n\
$ --make z\n\
|refused Recipe 1 1\n\
|Refused\n\
input recipe program; data 8; word 9 1; needs\n\
$ --make z\n\
|refused Recipe 3 2\n\
|Refused\n\
input recipe static; data 10; word 8 7\n\
$ --make a/z\n\
|refused BadName\n\
|Refused\n\
input letters 1048576\n\
$ --make z\n\
|refused Recipe 1 1\n\
|Refused\n\
input letters 1048577\n\
$ --make z\n\
|refused InputTooLarge\n\
|Refused\n\
input letters 1048577\n\
$ --make .prelink.z\n\
|refused BadName\n\
|Refused\n\
# 1024 files\n\
text .prelink.cache\n\
many 1024\n\
input recipe static; data 10; word 8 7\n\
$ --make st\n\
|refused TooManyFiles\n\
|Refused\n\
# 1024 files\n\
text .prelink.cache\n\
many 1024\n\
input bare x\n\
$ --make st\n\
|refused Recipe 1 1\n\
|Refused\n\
# 1024 files\n\
text .prelink.cache\n\
many 1024\n\
input recipe static; data 10; word 8 7\n\
$ --make f5\n\
|made f5\n\
|Done, with other files\n\
# 1023 files\n\
text .prelink.cache\n\
many 1023\n\
input recipe static; data 10; word 8 7\n\
$ --make st\n\
|made st\n\
|Done, with other files";

/// Files that are installed, undone and removed.
const STORING: &str = "\
# files are installed, undone and removed\n\
input text hello\n\
$ -u -a\n\
|undone 0\n\
|Done\n\
$ --install notes\n\
|installed notes\n\
|Done, with other files\n\
$ --install notes\n\
|installed notes\n\
|Done\n\
$ --load notes\n\
|refused Refused notes 1\n\
|Refused\n\
$ -u notes notes\n\
|undone 0\n\
|Done\n\
$ -u notes a\n\
|refused NotThere a\n\
|Refused\n\
$ -u a/b a\n\
|refused BadName\n\
|Refused\n\
$ --install a/b\n\
|refused BadName\n\
|Refused\n\
$ --remove a/b\n\
|refused BadName\n\
|Refused\n\
$ --remove notes\n\
|removed notes\n\
|Done, with other files\n\
$ --remove notes\n\
|refused NotThere notes\n\
|Refused\n\
$ --load notes\n\
|refused NotThere notes\n\
|Refused\n\
# a journal that is none\n\
input text hello\n\
text .prelink.journal abc\n\
$ -u -a\n\
|refused BadJournal\n\
|Refused\n\
$ -u a/b\n\
|refused BadJournal\n\
|Refused\n\
$ --install notes\n\
|refused BadJournal\n\
|Refused\n\
$ --install a/b\n\
|refused BadName\n\
|Refused\n\
$ --make notes\n\
|refused BadJournal\n\
|Refused\n\
$ --remove notes\n\
|refused BadJournal\n\
|Refused\n\
$ --remove a/b\n\
|refused BadName\n\
|Refused\n\
$ -p\n\
|last 0\n\
|Done\n\
# the input fails\n\
input text hello\n\
fails input 0\n\
$ --install z\n\
|ReadFault\n\
fails input\n\
$ --remove z\n\
|refused NotThere z\n\
|Refused\n\
fails folder 0\n\
$ -u -a\n\
|DiskFault";

/// Runs that prelink everything: a program and its library; two definers of a symbol, a copy of a word that conflicts, a cycle, thread-local storage, a canonical address, files as a linker makes them, a symbolic library; changed files; files with a cause; shared slots; the program's own files; as many files as there may be.
const PRELINKING: &str = "\
# a program and its library\n\
$ -a\n\
|done 0 prelinked 0 current 0 skipped\n\
|Done\n\
# a program and its library\n\
put liba\n\
put p\n\
$ -a\n\
|done 2 prelinked 0 current 0 skipped\n\
|Done, with other files\n\
lines 4 --load p\n\
|fast\n\
|object 0000000000400000 0000000000501000 p\n\
|object 0000003000000000 0000003000101000 liba\n\
<entry \n\
|Done\n\
$ -p\n\
|last 1000\n\
|slot 0000003000000000 0000003000101000 liba\n\
|Done\n\
$ -a\n\
|done 0 prelinked 2 current 0 skipped\n\
|Done\n\
$ -a -n -v\n\
|current liba slot 0000003000000000 stamp 1000\n\
|current p conflicts 0\n\
|done 0 prelinked 2 current 0 skipped\n\
|Done\n\
lines 3 --load p --busy 3000000000-3000001000\n\
|slow\n\
|object 0000000000400000 0000000000501000 p\n\
<object 0000003000001000 \n\
|Done\n\
$ -a -v --region 3000200000-3000400000\n\
|prelinked liba slot 0000003000200000 stamp 1001\n\
|prelinked p conflicts 0\n\
|done 2 prelinked 0 current 0 skipped\n\
|Done, with other files\n\
$ -p\n\
|last 1001\n\
|slot 0000003000200000 0000003000301000 liba\n\
|Done\n\
# a program and its library\n\
put liba\n\
put p\n\
$ --all\n\
|done 2 prelinked 0 current 0 skipped\n\
|Done, with other files\n\
input copy liba\n\
$ --install libb\n\
|installed libb\n\
|Done, with other files\n\
holds libb liba\n\
|libb is the file of liba\n\
input copy liba\n\
input flip 1248\n\
$ --install libc\n\
|refused BadMark libc\n\
|Refused\n\
$ --remove liba\n\
|removed liba\n\
|Done, with other files\n\
$ --load p\n\
|refused NotThere liba\n\
|Refused\n\
$ --remove liba\n\
|refused NotThere liba\n\
|Refused\n\
# a program and its library\n\
put liba\n\
put p\n\
$ -a -n -v\n\
|prelinked liba slot 0000003000000000 stamp 1000\n\
|prelinked p conflicts 0\n\
|done 2 prelinked 0 current 0 skipped\n\
|Done\n\
# sets\n\
put libx\n\
put liby\n\
put libz\n\
put q\n\
$ -a -v\n\
|prelinked libx slot 0000003000000000 stamp 1000\n\
|prelinked liby slot 0000003000101000 stamp 1000\n\
|prelinked libz slot 0000003000202000 stamp 1000\n\
|prelinked q conflicts 1\n\
|done 4 prelinked 0 current 0 skipped\n\
|Done, with other files\n\
lines 6 --load q\n\
|fast\n\
|object 0000000000400000 0000000000501000 q\n\
|object 0000003000000000 0000003000101000 libx\n\
|object 0000003000202000 0000003000303000 libz\n\
|object 0000003000101000 0000003000202000 liby\n\
<entry \n\
|Done\n\
# sets\n\
put libd\n\
put libx\n\
put liby\n\
put r\n\
$ -a\n\
|done 4 prelinked 0 current 0 skipped\n\
|Done, with other files\n\
lines 6 --load r\n\
|fast\n\
|object 0000000000400000 0000000000501000 r\n\
|object 0000003000202000 0000003000303000 liby\n\
|object 0000003000000000 0000003000101000 libd\n\
|object 0000003000101000 0000003000202000 libx\n\
<entry \n\
|Done\n\
# sets\n\
put libm\n\
put libn\n\
put c\n\
$ -a\n\
|done 3 prelinked 0 current 0 skipped\n\
|Done, with other files\n\
lines 2 --load c\n\
|fast\n\
|object 0000000000400000 0000000000501000 c\n\
|Done\n\
$ -p\n\
|last 1000\n\
|slot 0000003000000000 0000003000101000 libm\n\
|slot 0000003000101000 0000003000202000 libn\n\
|Done\n\
# sets\n\
put libt\n\
put libu\n\
put t\n\
$ -a -v\n\
|prelinked libt slot 0000003000000000 stamp 1000\n\
|prelinked libu slot 0000003000101000 stamp 1000\n\
|prelinked t conflicts 4\n\
|done 3 prelinked 0 current 0 skipped\n\
|Done, with other files\n\
lines 2 --load t\n\
|fast\n\
|object 0000000000400000 0000000000501000 t\n\
|Done\n\
# sets\n\
put libk\n\
put k\n\
$ -a -v\n\
|prelinked k conflicts 1\n\
|prelinked libk slot 0000003000000000 stamp 1000\n\
|done 2 prelinked 0 current 0 skipped\n\
|Done, with other files\n\
lines 2 --load k\n\
|fast\n\
|object 0000000000400000 0000000000501000 k\n\
|Done\n\
# sets\n\
put libsys.so.1\n\
put libtext.so.2\n\
put tool\n\
$ -a -v\n\
|prelinked libsys.so.1 slot 0000003000000000 stamp 1000\n\
|prelinked libtext.so.2 slot 0000003000101000 stamp 1000\n\
|prelinked tool conflicts 1\n\
|done 3 prelinked 0 current 0 skipped\n\
|Done, with other files\n\
lines 5 --load tool\n\
|fast\n\
|object 0000000000400000 0000000000501000 tool\n\
|object 0000003000101000 0000003000202000 libtext.so.2\n\
|object 0000003000000000 0000003000101000 libsys.so.1\n\
<tls 1 \n\
|Done\n\
# sets\n\
put libsy\n\
put y\n\
$ -a\n\
|done 2 prelinked 0 current 0 skipped\n\
|Done, with other files\n\
lines 2 --load y\n\
|fast\n\
|object 0000000000400000 0000000000501000 y\n\
|Done\n\
# changed files\n\
put e\n\
put libe libe1\n\
put libx\n\
$ -a\n\
|done 3 prelinked 0 current 0 skipped\n\
|Done, with other files\n\
$ --load e\n\
|fast\n\
|object 0000000000400000 0000000000501000 e\n\
|object 0000003000000000 0000003000101000 libe\n\
|entry 0000000000400000\n\
|word 0000000000500000 0000000000000011\n\
|word 0000000000500008 0000000000000022\n\
|word 0000003000100000 0000000000000011\n\
|word 0000003000100008 0000000000000022\n\
|end\n\
|Done\n\
input recipe libe2\n\
$ --make libe\n\
|made libe\n\
|Done, with other files\n\
$ --load e\n\
|slow\n\
|object 0000000000400000 0000000000501000 e\n\
|object 0000003000000000 0000003000101000 libe\n\
|entry 0000000000400000\n\
|word 0000000000500000 0000000000000033\n\
|word 0000003000100000 0000000000000033\n\
|word 0000003000100008 0000000000000044\n\
|end\n\
|Done\n\
$ -a -v\n\
|prelinked e conflicts 0\n\
|prelinked libe slot 0000003000000000 stamp 1001\n\
|current libx slot 0000003000101000 stamp 1000\n\
|done 2 prelinked 1 current 0 skipped\n\
|Done, with other files\n\
$ -u -a\n\
|undone 3\n\
|Done, with other files\n\
holds e e\n\
|e is the file of e\n\
holds libe libe2\n\
|libe is the file of libe2\n\
holds libx libx\n\
|libx is the file of libx\n\
now 900\n\
$ -a -v\n\
|prelinked e conflicts 0\n\
|prelinked libe slot 0000003000000000 stamp 1002\n\
|prelinked libx slot 0000003000101000 stamp 1002\n\
|done 3 prelinked 0 current 0 skipped\n\
|Done, with other files\n\
now 1000\n\
# files with a cause\n\
put x static; data 8; word 0 7\n\
$ -a -v\n\
|skip x Static x\n\
|done 0 prelinked 0 current 1 skipped\n\
|Done\n\
# files with a cause\n\
put liba\n\
put libx\n\
$ -a --region 3000000000-3000201000\n\
|refused NoSlot libx 0000000000101000 0000000000100000\n\
|Refused\n\
# files with a cause\n\
put liba\n\
now 4294967295\n\
$ -a\n\
|done 1 prelinked 0 current 0 skipped\n\
|Done, with other files\n\
now 1000\n\
$ -a\n\
|done 0 prelinked 1 current 0 skipped\n\
|Done\n\
input recipe libx\n\
$ --make libx\n\
|made libx\n\
|Done, with other files\n\
$ -a\n\
|refused StampsSpent 4294967295\n\
|Refused\n\
# files with a cause\n\
put libsp\n\
input text hello\n\
$ --install notes\n\
|installed notes\n\
|Done, with other files\n\
$ -a -v\n\
|skip libsp Form libsp 1\n\
|skip notes Refused notes 1\n\
|done 0 prelinked 0 current 2 skipped\n\
|Done\n\
# files with a cause\n\
put s\n\
put b3\n\
put p\n\
$ -a -v\n\
|skip b3 Refused b3 23 37\n\
|skip p NotThere liba\n\
|skip s Undefined s g\n\
|done 0 prelinked 0 current 3 skipped\n\
|Done\n\
# files with a cause\n\
put liba\n\
put p\n\
$ -a -v --region 500000-900000\n\
|prelinked liba slot 0000000000500000 stamp 1000\n\
|skip p Form p 4\n\
|done 1 prelinked 0 current 1 skipped\n\
|Done, with other files\n\
holds p p\n\
|p is the file of p\n\
# shared slots\n\
put liba\n\
put libx\n\
put p\n\
put p2 program; needs libx; data 8; ref f global func; rel globdat 0 f 0\n\
$ -a --region 3000000000-3000101000\n\
|refused NoSlot libx 0000000000101000 0000000000000000\n\
|Refused\n\
$ -a -m -v --region 3000000000-3000101000\n\
|prelinked liba slot 0000003000000000 stamp 1000\n\
|prelinked libx slot 0000003000000000 stamp 1000\n\
|prelinked p conflicts 0\n\
|prelinked p2 conflicts 0\n\
|done 4 prelinked 0 current 0 skipped\n\
|Done, with other files\n\
lines 4 --load p\n\
|fast\n\
|object 0000000000400000 0000000000501000 p\n\
|object 0000003000000000 0000003000101000 liba\n\
<entry \n\
|Done\n\
lines 1 --load p2\n\
|fast\n\
|Done\n\
$ -a -v\n\
|current liba slot 0000003000000000 stamp 1000\n\
|prelinked libx slot 0000003000101000 stamp 1001\n\
|current p conflicts 0\n\
|prelinked p2 conflicts 0\n\
|done 2 prelinked 2 current 0 skipped\n\
|Done, with other files\n\
# the program's own files\n\
text .prelink.journal abc\n\
$ -a\n\
|refused BadJournal\n\
|Refused\n\
# the program's own files\n\
text .prelink.journal abc\n\
$ -a -n\n\
|done 0 prelinked 0 current 0 skipped\n\
|Done\n\
# the program's own files\n\
text .prelink.cache abc\n\
$ -a\n\
|refused BadCache\n\
|Refused\n\
# the program's own files\n\
text .prelink.cache abc\n\
$ -a -n\n\
|refused BadCache\n\
|Refused\n\
# as many files as there may be\n\
many 1024\n\
$ -a\n\
|done 0 prelinked 0 current 1024 skipped\n\
|Done\n\
# as many files as there may be\n\
many 1025\n\
$ -a\n\
|refused TooManyFiles\n\
|Refused";

/// Files that are verified.
const VERIFYING: &str = "\
# verified files\n\
put liba\n\
put p\n\
$ -a\n\
|done 2 prelinked 0 current 0 skipped\n\
|Done, with other files\n\
file p -y p\n\
|(the file of p)\n\
|Done\n\
file liba -y liba\n\
|(the file of liba)\n\
|Done\n\
input recipe libx\n\
$ --make liba\n\
|made liba\n\
|Done, with other files\n\
$ -y p\n\
|differs\n\
|Differs\n\
$ -y liba\n\
|differs\n\
|Differs\n\
# verified files\n\
put liba\n\
put p\n\
$ --verify p\n\
|differs\n\
|Differs\n\
$ -y a\n\
|refused NotThere a\n\
|Refused\n\
$ -y a/b\n\
|refused BadName\n\
|Refused\n\
# verified files\n\
put b3\n\
put p\n\
put x static; data 8; word 0 7\n\
$ -y b3\n\
|refused Refused b3 23 37\n\
|Refused\n\
$ -y p\n\
|refused NotThere liba\n\
|Refused\n\
$ -y=x\n\
|differs\n\
|Differs";

/// Loads that open their files while runs go on.
const WEAVING: &str = "\
# weaves\n\
put liba\n\
put p\n\
$ -a\n\
|done 2 prelinked 0 current 0 skipped\n\
|Done, with other files\n\
input recipe library; data 8; word 0 aaaa; def f global func 0 8\n\
$ --make libx\n\
|made libx\n\
|Done, with other files\n\
input lines load p; install liba libx; open 0; rename; open 0\n\
$ --weave\n\
|loader 0\n\
|slow\n\
|object 0000000000400000 0000000000501000 p\n\
|object 0000003000000000 0000003000101000 liba\n\
|entry 0000000000400000\n\
|word 0000000000500000 0000003000100000\n\
|word 0000003000100000 000000000000aaaa\n\
|end\n\
|run 0 done 1\n\
|weave end\n\
|Done\n\
input lines load p; install liba libx; open 0; open 0; rename\n\
$ --weave\n\
|loader 0\n\
|fast\n\
|object 0000000000400000 0000000000501000 p\n\
|object 0000003000000000 0000003000101000 liba\n\
|entry 0000000000400000\n\
|word 0000000000500000 0000003000100000\n\
|word 0000003000100000 0000000000001111\n\
|end\n\
|run 0 done 1\n\
|weave end\n\
|Done\n\
input open load p|open 0|undo|prelink 2000\n\
$ --weave\n\
|loader 0\n\
|wants liba\n\
|run 0 renames 0 of 2\n\
|run 1 waits\n\
|weave end\n\
|Done\n\
input lines undo libq; install libx libx; undo; rename\n\
$ --weave\n\
|run 0 refused NotThere libq\n\
|run 1 done 0\n\
|run 2 renames 1 of 2\n\
|weave end\n\
|Done\n\
input lines install liba libq\n\
$ --weave\n\
|refused NotThere libq\n\
|Refused\n\
# weaves\n\
input bare open 0\n\
$ --weave\n\
|refused Script 1\n\
|Refused\n\
input none\n\
$ --weave\n\
|weave end\n\
|Done\n\
input lines load p; open 0; open 0\n\
$ --weave\n\
|loader 0\n\
|refused NotThere p\n\
|weave end\n\
|Done\n\
# weaves\n\
put liba\n\
put libx library; data 8; word 0 aaaa; def f global func 0 8\n\
put pi pie; needs liba; entry 0; data 10; ref f global func; rel globdat 0 f 0; rel relative 8 - 0\n\
input lines load pi; install liba libx; open 0; rename; open 0\n\
$ --weave\n\
|loader 0\n\
|slow\n\
|object 0000002000000000 0000002000101000 pi\n\
|object 0000003000000000 0000003000101000 liba\n\
|entry 0000002000100000\n\
|word 0000002000100000 0000003000100000\n\
|word 0000002000100008 0000002000100000\n\
|word 0000003000100000 000000000000aaaa\n\
|end\n\
|run 0 done 1\n\
|weave end\n\
|Done\n\
input lines load pi; load liba; open 0; open 1\n\
$ --weave\n\
|loader 0\n\
|wants liba\n\
|loader 1\n\
|refused NotProgram liba\n\
|weave end\n\
|Done\n\
# weaves of many scripts\n\
put libe library; data 10; word 0 11; word 8 22; def x global object 0 10\n\
put libx library; data 8; word 0 aaaa; def f global func 0 8\n\
put e program; needs libe; bss 10; def x global object 0 10; rel copy 0 x 0\n\
$ -a\n\
|done 3 prelinked 0 current 0 skipped\n\
|Done, with other files\n\
input recipe library; data 10; word 0 33; word 8 44; def x global object 0 8\n\
$ --make libf\n\
|made libf\n\
|Done, with other files\n\
weaves 100\n\
|100 scripts are as they are to be";

/// A generated set, by another generator, builder and loader.
const DEMO: &str = "\
# generated sets: no call of the folder is made\n\
fails folder 0\n\
$ --demo 2\n\
|files 41\n\
|relocations 5122\n\
|conflicts 2937\n\
|fast 2\n\
|digest 6de6c450f0449a32483670f6e32b9754ba180f473d09d227b7ed52ae2f052cf8\n\
|Done\n\
$ --demo 2\n\
|files 41\n\
|relocations 5122\n\
|conflicts 2937\n\
|fast 2\n\
|digest 6de6c450f0449a32483670f6e32b9754ba180f473d09d227b7ed52ae2f052cf8\n\
|Done";

/// Commands that are stopped at each moment, and of which each call fails.
const STOPPED: &str = "\
# stopped at each moment, and each call fails: -a\n\
put liba\n\
put p\n\
input none\n\
stops p -a\n\
|first: done 2 prelinked 0 current 0 skipped\n\
|Done\n\
|again: done 0 prelinked 2 current 0 skipped\n\
|Done\n\
|stopped anywhere: before or after\n\
every -a\n\
|each call fails: folder true, input true, output true\n\
# stopped at each moment, and each call fails: -a\n\
put e\n\
put libe libe1\n\
put libx\n\
$ -a\n\
|done 3 prelinked 0 current 0 skipped\n\
|Done, with other files\n\
input recipe libe2\n\
$ --make libe\n\
|made libe\n\
|Done, with other files\n\
input none\n\
stops e -a\n\
|first: done 2 prelinked 1 current 0 skipped\n\
|Done\n\
|again: done 0 prelinked 3 current 0 skipped\n\
|Done\n\
|stopped anywhere: before or after\n\
every -a\n\
|each call fails: folder true, input true, output true\n\
# stopped at each moment, and each call fails: -u -a\n\
put e\n\
put libe libe1\n\
put libx\n\
$ -a\n\
|done 3 prelinked 0 current 0 skipped\n\
|Done, with other files\n\
input recipe libe2\n\
$ --make libe\n\
|made libe\n\
|Done, with other files\n\
input none\n\
stops e -u -a\n\
|first: undone 2\n\
|Done\n\
|again: undone 0\n\
|Done\n\
|stopped anywhere: before or after\n\
every -u -a\n\
|each call fails: folder true, input true, output true\n\
# stopped at each moment, and each call fails: --install liba\n\
put e\n\
put libe libe1\n\
put libx\n\
$ -a\n\
|done 3 prelinked 0 current 0 skipped\n\
|Done, with other files\n\
input recipe libe2\n\
$ --make libe\n\
|made libe\n\
|Done, with other files\n\
input file liba\n\
stops e --install liba\n\
|first: installed liba\n\
|Done\n\
|again: installed liba\n\
|Done\n\
|stopped anywhere: before or after\n\
every --install liba\n\
|each call fails: folder true, input true, output true\n\
# stopped at each moment, and each call fails: --make liba\n\
put e\n\
put libe libe1\n\
put libx\n\
$ -a\n\
|done 3 prelinked 0 current 0 skipped\n\
|Done, with other files\n\
input recipe libe2\n\
$ --make libe\n\
|made libe\n\
|Done, with other files\n\
input recipe liba\n\
stops e --make liba\n\
|first: made liba\n\
|Done\n\
|again: made liba\n\
|Done\n\
|stopped anywhere: before or after\n\
every --make liba\n\
|each call fails: folder true, input true, output true\n\
# stopped at each moment, and each call fails: --remove libx\n\
put e\n\
put libe libe1\n\
put libx\n\
$ -a\n\
|done 3 prelinked 0 current 0 skipped\n\
|Done, with other files\n\
input recipe libe2\n\
$ --make libe\n\
|made libe\n\
|Done, with other files\n\
input none\n\
stops e --remove libx\n\
|first: removed libx\n\
|Done\n\
|again: refused NotThere libx\n\
|Refused\n\
|stopped anywhere: before or after\n\
every --remove libx\n\
|each call fails: folder true, input true, output true";

/// Fails at the first line of a script that is not as it is to be.
fn check(alloc: Global, script: &str) -> Result<(), Fail> {
    let mut session = Session::new(alloc);
    for line in script.lines() {
        if !session.goes_on(alloc, line)? {
            return Err(line.into());
        }
    }
    if !session.is_done() {
        return Err("the end of a script".into());
    }
    Ok(())
}

#[test]
fn loads(rt: HostRuntime) -> Result<(), Fail> {
    check(rt.alloc(), LOADS)
}

#[test]
fn loads_changed_files(rt: HostRuntime) -> Result<(), Fail> {
    check(rt.alloc(), CHANGED)
}

#[test]
fn places_where_the_words_say(rt: HostRuntime) -> Result<(), Fail> {
    check(rt.alloc(), PLACES)
}

#[test]
fn fixes_and_loosens(rt: HostRuntime) -> Result<(), Fail> {
    check(rt.alloc(), PIES)
}

#[test]
fn makes_files(rt: HostRuntime) -> Result<(), Fail> {
    check(rt.alloc(), MAKING)
}

#[test]
fn installs_and_removes(rt: HostRuntime) -> Result<(), Fail> {
    check(rt.alloc(), STORING)
}

#[test]
fn prelinks(rt: HostRuntime) -> Result<(), Fail> {
    check(rt.alloc(), PRELINKING)
}

#[test]
fn verifies(rt: HostRuntime) -> Result<(), Fail> {
    check(rt.alloc(), VERIFYING)
}

#[test]
fn weaves(rt: HostRuntime) -> Result<(), Fail> {
    check(rt.alloc(), WEAVING)
}

#[test]
fn set_of_a_number(rt: HostRuntime) -> Result<(), Fail> {
    check(rt.alloc(), DEMO)
}

#[test]
fn stops_and_fails(rt: HostRuntime) -> Result<(), Fail> {
    check(rt.alloc(), STOPPED)
}
