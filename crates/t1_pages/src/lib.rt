//! The pages of rules and refusals, as docs/RULES.md has them. Made by pages.sh; what is changed here is lost.
#![tactic(auto)]

use t1_forms::Page;

static F01: Page = Page {
    code: "F01",
    anchor: "f01-no-end-segment",
    title: "no end segment",
    text: "Level *should* (Technical Note 5040, section 3.3): outlines are read, but a downloader may wait, and the file may have been cut.\n\nThe file was cut, or a tool omits the mark. Example: a PFB file without its last two bytes, `80 03`.\n\n    1: font file 0 F01 no end segment\n\nMended:\n\n    printf '\\200\\003' >>font.pfb\n\nCure: write the two bytes `80 03` at the end; if other bytes are missing as well, take the font from its source again.",
};

fn f01() -> &'static Page {
    &F01
}

static F02: Page = Page {
    code: "F02",
    anchor: "f02-bytes-after-the-end-segment",
    title: "bytes after the end segment",
    text: "Level *tidy* (Technical Note 5040, section 3.3): nothing reads these bytes.\n\nTwo files were put together, or a transfer filled the file up. Example: one more byte `0A` after `80 03`.\n\n    1: font file 0 F02 bytes after the end segment\n\nMended:\n\n    truncate -s -1 font.pfb\n\nCure: look at what is after `80 03`, then cut the file after these two bytes.",
};

fn f02() -> &'static Page {
    &F02
}

static F03: Page = Page {
    code: "F03",
    anchor: "f03-fonttype-is-not-1",
    title: "FontType is not 1",
    text: "Level *must* (Type 1 Format, chapter 2): an interpreter refuses the font, or doesn't read its charstrings. Ghostscript refuses it.\n\nBy this number an interpreter decides how it reads glyphs.\n\n    /FontType 3 def\n    1: font FontType 0 F03 FontType is not 1\n       FontType is 3; 1 is needed\n\nMended:\n\n    /FontType 1 def\n\nCure: `/FontType 1 def` in the clear text.",
};

fn f03() -> &'static Page {
    &F03
}

static F04: Page = Page {
    code: "F04",
    anchor: "f04-painttype-is-not-0-or-2",
    title: "PaintType is not 0 or 2",
    text: "Level *must* (Type 1 Format, chapter 2): interpreters paint something else, or nothing.\n\n0 means that outlines are filled, 2 that they are stroked with the width StrokeWidth. There is no other way.\n\n    /PaintType 1 def\n    1: font PaintType 0 F04 PaintType is not 0 or 2\n       PaintType is 1; 0 or 2 is needed\n\nMended:\n\n    /PaintType 0 def\n\nCure: `/PaintType 0 def`.",
};

fn f04() -> &'static Page {
    &F04
}

static F05: Page = Page {
    code: "F05",
    anchor: "f05-uniqueid-out-of-range",
    title: "UniqueID out of range",
    text: "Level *must* (Type 1 Format, chapter 2): an interpreter may refuse the font, as Ghostscript does below 0, or print another font's glyphs.\n\nA printer keeps drawn glyphs under this number, which has 24 bits. The entry may be absent, in both dictionaries.\n\n    /UniqueID 16777216 def\n    1: font UniqueID 0 F05 UniqueID out of range\n       UniqueID is 16777216; 0 to 16777215 is needed\n\nMended:\n\n    /UniqueID 4000001 def\n\nCure: a registered number, one from 4000000 to 4999999 (which are for private use), or no UniqueID in either dictionary.",
};

fn f05() -> &'static Page {
    &F05
}

static F06: Page = Page {
    code: "F06",
    anchor: "f06-uniqueids-differ",
    title: "UniqueIDs differ",
    text: "Level *must* (Type 1 Format, chapter 5): a printer may print the glyphs of another font, which it has kept under the number.\n\nThe font's dictionary and Private have to name the same number. A font in which they differ was often made from another one. Where only one\ndictionary has a number this rule isn't violated.\n\n    /UniqueID 5000793 def     % in the clear text\n    /UniqueID 5000794 def     % in Private\n    1: font PrivateUniqueID 0 F06 UniqueIDs differ\n       5000793 in the clear text, 5000794 in Private\n\nMended:\n\n    /UniqueID 5000793 def     % in Private\n\nCure: the same number in both, a new one where the glyphs aren't those of the older font. Where Private has it twice the later one counts: remove the\nwrong one.",
};

fn f06() -> &'static Page {
    &F06
}

static F07: Page = Page {
    code: "F07",
    anchor: "f07-password-is-not-5839",
    title: "password is not 5839",
    text: "Level *must* (Type 1 Format, chapter 5): early interpreters refuse the font.\n\nPrivate has to have this entry; it says nothing else.\n\n    /password 5838 def\n    1: font password 0 F07 password is not 5839\n       password is 5838; 5839 is needed\n\nMended:\n\n    /password 5839 def\n\nCure: `/password 5839 def` in Private.",
};

fn f07() -> &'static Page {
    &F07
}

static F08: Page = Page {
    code: "F08",
    anchor: "f08-minfeature-is-not-16-16",
    title: "MinFeature is not {16 16}",
    text: "Level *must* (Type 1 Format, chapter 5): early interpreters refuse the font.\n\nRequired for them, as password. An array, `[16 16]`, is accepted as well.\n\n    /MinFeature {16} def\n    1: font MinFeature 0 F08 MinFeature is not {16 16}\n       it is a list of 1 number\n\nMended:\n\n    /MinFeature {16 16} def\n\nCure: `/MinFeature {16 16} def` in Private.",
};

fn f08() -> &'static Page {
    &F08
}

static F09: Page = Page {
    code: "F09",
    anchor: "f09-no-notdef",
    title: "no .notdef",
    text: "Level *must* (Type 1 Format, chapter 2): where a code has no glyph an interpreter fails.\n\nThis glyph is shown for each code and each name that has none. Without it Ghostscript refuses the font (`invalidfont`), and others stop at the\nfirst such character. Example: `A` is the only glyph.\n\n    /A 9 RD … ND\n    1: font CharStrings 0 F09 no .notdef\n       the only glyph has another name\n\nMended:\n\n    /.notdef 9 RD … ND\n    /A 9 RD … ND\n\nCure: add a glyph `.notdef`; one with a width and no outline will do.",
};

fn f09() -> &'static Page {
    &F09
}

static F10: Page = Page {
    code: "F10",
    anchor: "f10-glyph-given-twice",
    title: "glyph given twice",
    text: "Level *must* (our own rule): some interpreters draw the first of the two, others the last.\n\nPostScript keeps the later one, as t1check does; a reader that stops at the first match shows the earlier one. So the font can look\ndifferent on screen and on paper.\n\n    /.notdef 9 RD … ND\n    /A 9 RD … ND\n    /A 43 RD … ND\n    1: font CharStrings 1 F10 glyph given twice\n       the glyph is A\n\nMended:\n\n    /.notdef 9 RD … ND\n    /A 43 RD … ND\n\nHow much it matters: 33 of 1,454 real fonts have 73 such glyphs. Where both charstrings are the same nothing different is drawn.\n\nCure: remove the one that isn't wanted, and write the smaller number of glyphs before `dict`.",
};

fn f10() -> &'static Page {
    &F10
}

static F11: Page = Page {
    code: "F11",
    anchor: "f11-encoding-of-another-form",
    title: "Encoding of another form",
    text: "Level *must* (Type 1 Format, chapter 2): an interpreter may refuse the font, or give codes other glyphs.\n\nInstallers and screen drivers, such as Adobe Type Manager, don't execute PostScript: they look for `/Encoding StandardEncoding def` or\nfor a custom Encoding.\n\n    /Encoding ISOLatin1Encoding def\n    1: font Encoding 0 F11 Encoding of another form\n       it is neither StandardEncoding nor an array of 256 names\n\nMended:\n\n    /Encoding StandardEncoding def\n\nAn array in brackets and one of another size (`128 array`) are such forms too.\n\nCure: write the codes as rows of `256 array`.",
};

fn f11() -> &'static Page {
    &F11
}

static F12: Page = Page {
    code: "F12",
    anchor: "f12-code-past-255",
    title: "code past 255",
    text: "Level *must* (Type 1 Format, chapter 2): an interpreter refuses the font, as Ghostscript does, or the code has no glyph.\n\nA row with another code stops an interpreter with `rangecheck` or `typecheck`. t1check skips the row. However many such rows there are, there is\none line.\n\n    dup 256 /A put\n    1: font Encoding 0 F12 code past 255\n\nMended:\n\n    dup 255 /A put\n\nCure: mend the code, or remove the row; a glyph without a code is still reached by its name.",
};

fn f12() -> &'static Page {
    &F12
}

static F13: Page = Page {
    code: "F13",
    anchor: "f13-encoded-glyph-missing",
    title: "encoded glyph missing",
    text: "Level *should* (our own rule): `.notdef` is drawn for the code; a subset may have been cut so on purpose.\n\nSubsets of fonts often keep the codes of the whole font. In a whole font it is mostly a misspelled name. Where a code is set twice its later name\ncounts. Example: no glyph is named `Alpha`.\n\n    dup 65 /Alpha put\n    1: font Encoding 65 F13 encoded glyph missing\n       code 65 names Alpha\n\nMended:\n\n    dup 65 /A put\n\nHow much it matters: in a subset not at all, while no text has such a code. 43 of 1,454 real fonts have 430 such rows.\n\nCure: add the glyph, mend the name, or remove the row.",
};

fn f13() -> &'static Page {
    &F13
}

static F14: Page = Page {
    code: "F14",
    anchor: "f14-subr-given-twice-or-past-the-array",
    title: "Subr given twice or past the array",
    text: "Level *must* (Type 1 Format, chapter 8): an interpreter refuses the font, as Ghostscript does, or calls another Subr.\n\n`/Subrs 5 array` has the numbers 0 to 4. An entry past them stops an interpreter with `rangecheck`; other readers skip it, and glyphs that call\nit break. Of two entries with one number readers take one or the other.\n\n    /Subrs 5 array\n    dup 5 7 RD … NP\n    1: font Subrs 5 F14 Subr given twice or past the array\n       Subr 5 is past the size 5\n\nMended:\n\n    /Subrs 6 array\n\nCure: write the greatest number plus 1 before `array`; remove, or number anew, the entry that is given twice.",
};

fn f14() -> &'static Page {
    &F14
}

static Z01: Page = Page {
    code: "Z01",
    anchor: "z01-value-of-another-kind",
    title: "value of another kind",
    text: "Level *must* (Type 1 Format, chapter 5): an interpreter may refuse the font, as Ghostscript does.\n\nBlueScale, BlueShift and BlueFuzz need a number; the zone lists, StdHW, StdVW, StemSnapH and StemSnapV a list of numbers. An entry of another\nkind stops an interpreter with `typecheck`, or is ignored. The other rules don't look at its value.\n\n    /StdHW 30 def\n    1: font StdHW 0 Z01 value of another kind\n       it is the number 30; a list of numbers is needed\n\nMended:\n\n    /StdHW [30] def\n\nAn exponent isn't read; write `.039`:\n\n    /BlueScale 3.9e-2 def\n    1: font BlueScale 0 Z01 value of another kind\n       it is neither a number nor a list of numbers; a number is needed\n\nCure: write a list in brackets, or a number without them.",
};

fn z01() -> &'static Page {
    &Z01
}

static Z02: Page = Page {
    code: "Z02",
    anchor: "z02-too-many-zone-numbers",
    title: "too many zone numbers",
    text: "Level *must* (Type 1 Format, chapter 5): an interpreter may refuse the font, as Ghostscript does, or leave zones out.\n\nSeven zones fit in BlueValues and FamilyBlues, five in OtherBlues and FamilyOtherBlues. Rasterisers drop further ones or the whole list. INDEX is that\nof the first number too many.\n\n    /BlueValues [-15 0 400 410 450 460 500 510 540 550 600 610 650 660 700 710] def\n    1: font BlueValues 14 Z02 too many zone numbers\n       16 numbers, 14 at most\n\nMended:\n\n    /BlueValues [-15 0 400 410 450 460 500 510 540 550 600 610 650 660] def\n\nCure: keep the zones of the most glyphs (baseline, x-height, capitals, ascenders, figures).",
};

fn z02() -> &'static Page {
    &Z02
}

static Z03: Page = Page {
    code: "Z03",
    anchor: "z03-odd-count-of-zone-numbers",
    title: "odd count of zone numbers",
    text: "Level *must* (Type 1 Format, chapter 5): an interpreter may refuse the font, as Ghostscript does.\n\nA bottom or a top is missing, so all pairs after it may be shifted.\n\n    /BlueValues [-15 0 700] def\n    1: font BlueValues 0 Z03 odd count of zone numbers\n       3 numbers\n\nMended:\n\n    /BlueValues [-15 0 700 715] def\n\nCure: write the missing number; a zone without height has the same number twice.",
};

fn z03() -> &'static Page {
    &Z03
}

static Z04: Page = Page {
    code: "Z04",
    anchor: "z04-zone-numbers-fall",
    title: "zone numbers fall",
    text: "Level *should* (Type 1 Format, chapter 5): heights are rounded otherwise than meant.\n\nThe numbers must rise, within a zone and from zone to zone (equal ones don't break this rule). A zone whose top is below its bottom catches no edge.\n\n    /BlueValues [-15 0 700 690] def\n    1: font BlueValues 3 Z04 zone numbers fall\n       690 comes after 700\n\nMended:\n\n    /BlueValues [-15 0 690 700] def\n\nHow much it matters: the zone is lost. Mostly Z05 names the same place, and one cure ends both lines: so at each of 182 places in 1,454 real fonts.\n\nCure: sort the pairs, each with the lower number first. A negative overshoot at the baseline is `-15 0`, not `0 -15`.",
};

fn z04() -> &'static Page {
    &Z04
}

static Z05: Page = Page {
    code: "Z05",
    anchor: "z05-zones-too-near",
    title: "zones too near",
    text: "Level *should* (Type 1 Format, chapter 5): edges between the two zones may jump at small sizes.\n\nBlueFuzz widens each zone by so many units below and above. Two zones of a list must be D = 2 × BlueFuzz + 1 units apart; else an edge may belong to\nboth.\n\n    /BlueValues [-15 0 520 530 532 545] def\n    1: font BlueValues 4 Z05 zones too near\n       from 530 to 532 is 2; 3 is needed; BlueFuzz 0.5 would do\n\nMended:\n\n    /BlueValues [-15 0 520 530 533 545] def\n\nHow much it matters: where Z04 names the same place, mend that one.\n\nCure: make one zone of both, move them apart, or set `/BlueFuzz 0 def`, with which D is 1.",
};

fn z05() -> &'static Page {
    &Z05
}

static Z06: Page = Page {
    code: "Z06",
    anchor: "z06-zones-of-two-lists-too-near",
    title: "zones of two lists too near",
    text: "Level *should* (Type 1 Format, chapter 5): edges between the two zones may jump at small sizes.\n\nThe same between a zone of OtherBlues and one of BlueValues, and between a zone of FamilyOtherBlues and one of FamilyBlues. A zone from\na to b and one from c to d are too near where c − b < D and a − d < D, whichever lies below. The line is at the zone of OtherBlues or\nFamilyOtherBlues, once for each such zone.\n\n    /BlueValues [-8 0] def\n    /OtherBlues [-20 -10] def\n    1: font OtherBlues 0 Z06 zones of two lists too near\n       zone -20 to -10 lies 2 below zone -8 to 0; 3 is needed; BlueFuzz 0.5 would do\n\nMended:\n\n    /OtherBlues [-21 -11] def\n\nCure: as for Z05. Remove a zone that is in both lists from OtherBlues, or FamilyOtherBlues.",
};

fn z06() -> &'static Page {
    &Z06
}

static Z07: Page = Page {
    code: "Z07",
    anchor: "z07-zone-too-high-for-bluescale",
    title: "zone too high for BlueScale",
    text: "Level *should* (Type 1 Format, chapter 5): at some sizes round letters are too high where they shouldn't be.\n\nBlueScale says, in pixels per unit, up to which size overshoots are suppressed: all edges of a zone are then on one line. A zone that is a pixel high\nat that size, or more, loses a difference that could be shown, and heights jump where suppression ends.\n\n    /BlueValues [0 26] def\n    1: font BlueValues 1 Z07 zone too high for BlueScale\n       zone 0 to 26, height 26 times BlueScale 0.039625 is 1.03025; less than 1 is needed; BlueScale 0.038461538 would do\n\nMended:\n\n    /BlueValues [0 25] def\n\nHow much it matters: often only a digit was rounded. At 109 of 147 such places in 1,454 real fonts the product was below 1.001. There nothing is seen,\nand a BlueScale whose last digit is one lower ends the line.\n\nCure: make the zone lower, or BlueScale less than 1 divided by the height of the highest zone, here `/BlueScale .038 def`. Digits after the ninth\ndecimal are cut: 24 × 0.0416666667 is below 1 here.",
};

fn z07() -> &'static Page {
    &Z07
}

static Z08: Page = Page {
    code: "Z08",
    anchor: "z08-not-one-standard-width",
    title: "not one standard width",
    text: "Level *must* (Type 1 Format, chapter 5): an interpreter may refuse the font, as Ghostscript does where there are two.\n\nThe standard width is a list with one number.\n\n    /StdVW [84 90] def\n    1: font StdVW 0 Z08 not one standard width\n       2 numbers; 1 is needed\n\nMended:\n\n    /StdVW [84] def\n\nCure: keep the most frequent width here, and write the others in StemSnapV (StemSnapH).",
};

fn z08() -> &'static Page {
    &Z08
}

static Z09: Page = Page {
    code: "Z09",
    anchor: "z09-too-many-stem-snaps",
    title: "too many stem snaps",
    text: "Level *must* (Type 1 Format, chapter 5): an interpreter may refuse the font, as Ghostscript does (`limitcheck`), or ignore the widths.\n\nTwelve widths fit. INDEX is that of the first number too many, 12.\n\n    /StemSnapH [20 22 24 26 28 30 32 34 36 38 40 42 44] def\n    1: font StemSnapH 12 Z09 too many stem snaps\n       13 numbers, 12 at most\n\nMended:\n\n    /StemSnapH [20 22 24 26 28 30 32 34 36 38 40 42] def\n\nCure: keep the twelve most frequent widths; those that differ by a unit or two are better given as one.",
};

fn z09() -> &'static Page {
    &Z09
}

static Z10: Page = Page {
    code: "Z10",
    anchor: "z10-stem-snaps-fall",
    title: "stem snaps fall",
    text: "Level *should* (Type 1 Format, chapter 5): an interpreter may leave widths out.\n\nThe widths must rise: a rasteriser that searches them in order may otherwise pick a wrong one. Only the first 12 are compared.\n\n    /StemSnapV [84 80] def\n    1: font StemSnapV 1 Z10 stem snaps fall\n       80 comes after 84\n\nMended:\n\n    /StemSnapV [80 84] def\n\nCure: sort them.",
};

fn z10() -> &'static Page {
    &Z10
}

static Z11: Page = Page {
    code: "Z11",
    anchor: "z11-standard-width-not-among-the-snaps",
    title: "standard width not among the snaps",
    text: "Level *should* (Type 1 Format, chapter 5): stems of the usual width may be rounded otherwise than meant.\n\nThe most frequent stems would be drawn with another width, as the nearest one in the list. Only the first 12 numbers of the list count.\n\n    /StdHW [30] def\n    /StemSnapH [20 40] def\n    1: font StemSnapH 0 Z11 standard width not among the snaps\n       30 is none of the snaps; 20 is nearest\n\nMended:\n\n    /StemSnapH [20 30 40] def\n\nCure: add the width in its place, `[20 30 40]`; or mend StdHW where it was copied from another font.",
};

fn z11() -> &'static Page {
    &Z11
}

static C01: Page = Page {
    code: "C01",
    anchor: "c01-shorter-than-leniv",
    title: "shorter than lenIV",
    text: "Level *must* (Type 1 Format, chapter 7): the glyph can't be decrypted.\n\nlenIV says how many random bytes come before each charstring, 4 where nothing else is said. A charstring without even these has no command. Some\ninterpreters read past its end.\n\n    /.notdef 9 RD … ND\n    /A 3 RD … ND\n    1: glyph A - 1 C01 shorter than lenIV\n       3 bytes, lenIV is 4\n    2: glyph A - 2 GE01 no endchar\n\nMended:\n\n    /A 9 RD … ND\n\nCure: compile the glyph again; where all glyphs have this line, mend lenIV (`/lenIV -1 def` says that charstrings aren't encrypted).\n\nTo find the step: `t1disasm FONT TEXT`, of Debian's t1utils, writes dictionaries and charstrings as text, and\n`t1asm --pfb TEXT FONT` makes the font of it; where lenIV is -1 it leaves charstrings raw. Glyph A is below `/A {`, the Subr of PATH `5>6` below\n`dup 6 {`. `t1check --trace A FONT` numbers what is executed, Subrs too, as STEP does.",
};

fn c01() -> &'static Page {
    &C01
}

static C02: Page = Page {
    code: "C02",
    anchor: "c02-breaks-off-in-a-token",
    title: "breaks off in a token",
    text: "Level *must* (Type 1 Format, chapter 6): the glyph breaks off, or isn't drawn.\n\nThe last number or command isn't whole: bytes are missing, or the length before `RD` is too small. In the example 255 begins a number of four more\nbytes.\n\n    A: 0 500 hsbw, and the bytes 255 0 0\n    1: glyph A - 4 C02 breaks off in a token\n    2: glyph A - 5 GE01 no endchar\n\nMended:\n\n    A: 0 500 hsbw endchar\n\nCure: compile the glyph again, or take the font from its source again.\n\nTo find the step: `t1disasm FONT TEXT`, of Debian's t1utils, writes dictionaries and charstrings as text, and\n`t1asm --pfb TEXT FONT` makes the font of it; where lenIV is -1 it leaves charstrings raw. Glyph A is below `/A {`, the Subr of PATH `5>6` below\n`dup 6 {`. `t1check --trace A FONT` numbers what is executed, Subrs too, as STEP does.",
};

fn c02() -> &'static Page {
    &C02
}

static C03: Page = Page {
    code: "C03",
    anchor: "c03-unknown-command",
    title: "unknown command",
    text: "Level *must* (Type 1 Format, chapter 6): interpreters stop at the command, or leave it out.\n\nThe byte is no command of Type 1 fonts. Commands of Type 2 charstrings, as `hhcurveto` (27), are unknown too, and so is each glyph's noise where lenIV\nis wrong.\n\n    A: 0 500 hsbw unknown 15 endchar\n    1: glyph A - 4 C03 unknown command\n       byte 15\n\nMended:\n\n    A: 0 500 hsbw endchar\n\nCure: write what was meant in commands of chapter 6; convert a Type 2 charstring with a tool that knows both formats.\n\nTo find the step: `t1disasm FONT TEXT`, of Debian's t1utils, writes dictionaries and charstrings as text, and\n`t1asm --pfb TEXT FONT` makes the font of it; where lenIV is -1 it leaves charstrings raw. Glyph A is below `/A {`, the Subr of PATH `5>6` below\n`dup 6 {`. `t1check --trace A FONT` numbers what is executed, Subrs too, as STEP does.",
};

fn c03() -> &'static Page {
    &C03
}

static C04: Page = Page {
    code: "C04",
    anchor: "c04-too-few-arguments",
    title: "too few arguments",
    text: "Level *must* (Type 1 Format, chapter 6): the glyph isn't drawn, or with numbers that are left from before.\n\nWhat an interpreter takes for the missing number is open: 0, or what an earlier command left in memory.\n\n    A: 0 500 hsbw 50 hmoveto 100 rlineto closepath endchar\n    1: glyph A - 7 C04 too few arguments\n       rlineto takes 2 numbers, 1 is on the stack\n\nMended:\n\n    A: 0 500 hsbw 50 hmoveto 100 hlineto closepath endchar\n\nCure: write the missing number, or the command that was meant, here hlineto.\n\nTo find the step: `t1disasm FONT TEXT`, of Debian's t1utils, writes dictionaries and charstrings as text, and\n`t1asm --pfb TEXT FONT` makes the font of it; where lenIV is -1 it leaves charstrings raw. Glyph A is below `/A {`, the Subr of PATH `5>6` below\n`dup 6 {`. `t1check --trace A FONT` numbers what is executed, Subrs too, as STEP does.",
};

fn c04() -> &'static Page {
    &C04
}

static C05: Page = Page {
    code: "C05",
    anchor: "c05-too-many-arguments",
    title: "too many arguments",
    text: "Level *must* (Type 1 Format, chapter 6): some interpreters take the lowest numbers, others the topmost.\n\nNumbers are left over, so a command was lost, or the wrong one is there.\n\n    A: 0 500 hsbw 50 20 hmoveto 100 hlineto closepath endchar\n    1: glyph A - 6 C05 too many arguments\n       hmoveto takes 1 number, 2 are on the stack\n\nMended:\n\n    A: 0 500 hsbw 50 20 rmoveto 100 hlineto closepath endchar\n\nCure: write the command that was meant, here rmoveto, or remove the number. Numbers before the end of a Subr may be meant for its caller and break no\nrule there.\n\nTo find the step: `t1disasm FONT TEXT`, of Debian's t1utils, writes dictionaries and charstrings as text, and\n`t1asm --pfb TEXT FONT` makes the font of it; where lenIV is -1 it leaves charstrings raw. Glyph A is below `/A {`, the Subr of PATH `5>6` below\n`dup 6 {`. `t1check --trace A FONT` numbers what is executed, Subrs too, as STEP does.",
};

fn c05() -> &'static Page {
    &C05
}

static C06: Page = Page {
    code: "C06",
    anchor: "c06-more-than-24-numbers",
    title: "more than 24 numbers",
    text: "Level *must* (Type 1 Format, chapter 6): an interpreter's stack overflows, and the glyph isn't drawn.\n\nA further number stops an interpreter or is lost, or overwrites memory. Each number past the 24th has its line. Here rlineto is given thirteen pairs,\nas a Type 2 charstring may have them.\n\n    A: 0 500 hsbw 0 hmoveto\n       10 20 … (thirteen times) rlineto closepath endchar\n    1: glyph A - 30 C06 more than 24 numbers\n       the number 10 after 24 numbers, 24 at most\n    2: glyph A - 31 C06 more than 24 numbers\n       the number 20 after 24 numbers, 24 at most\n    3: glyph A - 32 C05 too many arguments\n       rlineto takes 2 numbers, 24 are on the stack\n\nMended:\n\n    A: 0 500 hsbw 0 hmoveto\n       10 20 rlineto … (thirteen times) closepath endchar\n\nCure: give each command its own numbers.\n\nTo find the step: `t1disasm FONT TEXT`, of Debian's t1utils, writes dictionaries and charstrings as text, and\n`t1asm --pfb TEXT FONT` makes the font of it; where lenIV is -1 it leaves charstrings raw. Glyph A is below `/A {`, the Subr of PATH `5>6` below\n`dup 6 {`. `t1check --trace A FONT` numbers what is executed, Subrs too, as STEP does.",
};

fn c06() -> &'static Page {
    &C06
}

static C07: Page = Page {
    code: "C07",
    anchor: "c07-number-out-of-range",
    title: "number out of range",
    text: "Level *must* (Type 1 Format, chapter 6): interpreters refuse the number, or cut it.\n\nThe arguments of a command may be up to 32000 either way. Greater numbers are for div alone. Interpreters that keep 16 bits for a number draw something\nelse.\n\n    A: 0 500 hsbw 32001 hmoveto endchar\n    1: glyph A - 5 C07 number out of range\n       argument 1 is 32001, 32000 at most\n\nMended:\n\n    A: 0 500 hsbw 32000 hmoveto endchar\n\nCure: mend the number. A fraction is written by div, as `5 2 div` for 2.5.\n\nTo find the step: `t1disasm FONT TEXT`, of Debian's t1utils, writes dictionaries and charstrings as text, and\n`t1asm --pfb TEXT FONT` makes the font of it; where lenIV is -1 it leaves charstrings raw. Glyph A is below `/A {`, the Subr of PATH `5>6` below\n`dup 6 {`. `t1check --trace A FONT` numbers what is executed, Subrs too, as STEP does.",
};

fn c07() -> &'static Page {
    &C07
}

static C08: Page = Page {
    code: "C08",
    anchor: "c08-quotient-out-of-range",
    title: "quotient out of range",
    text: "Level *must* (Type 1 Format, chapter 6): interpreters refuse the quotient, or cut it.\n\nWhat div gives has to be in the range of C07.\n\n    A: 0 500 hsbw 64002 2 div hmoveto endchar\n    1: glyph A - 6 C08 quotient out of range\n       64002 divided by 2\n\nMended:\n\n    A: 0 500 hsbw 64000 2 div hmoveto endchar\n\nCure: mend the numbers. The quotient is first cut to 1/65536: one that is less than 1/65536 past 32000 is 32000 then, and in range.\n\nTo find the step: `t1disasm FONT TEXT`, of Debian's t1utils, writes dictionaries and charstrings as text, and\n`t1asm --pfb TEXT FONT` makes the font of it; where lenIV is -1 it leaves charstrings raw. Glyph A is below `/A {`, the Subr of PATH `5>6` below\n`dup 6 {`. `t1check --trace A FONT` numbers what is executed, Subrs too, as STEP does.",
};

fn c08() -> &'static Page {
    &C08
}

static C09: Page = Page {
    code: "C09",
    anchor: "c09-division-by-zero",
    title: "division by zero",
    text: "Level *must* (our own rule): interpreters stop there, or go on with any number.\n\n    A: 0 500 hsbw 5 0 div hmoveto endchar\n    1: glyph A - 6 C09 division by zero\n       5 divided by 0\n\nMended:\n\n    A: 0 500 hsbw 5 2 div hmoveto endchar\n\nCure: mend the divisor; mostly a number was lost, or a fraction was rounded to 0.\n\nTo find the step: `t1disasm FONT TEXT`, of Debian's t1utils, writes dictionaries and charstrings as text, and\n`t1asm --pfb TEXT FONT` makes the font of it; where lenIV is -1 it leaves charstrings raw. Glyph A is below `/A {`, the Subr of PATH `5>6` below\n`dup 6 {`. `t1check --trace A FONT` numbers what is executed, Subrs too, as STEP does.",
};

fn c09() -> &'static Page {
    &C09
}

static S01: Page = Page {
    code: "S01",
    anchor: "s01-no-such-subr",
    title: "no such Subr",
    text: "Level *must* (Type 1 Format, chapter 6): interpreters stop at the call.\n\nMany interpreters drop the whole glyph. Subsets of fonts that lack a Subr too many have this. A Subr past the array (F14) is there, and is called.\n\n    A: 0 500 hsbw 4 callsubr endchar\n    1: glyph A - 5 S01 no such Subr\n       there is no Subr 4\n\nMended:\n\n    Subr 5: return\n    A: 0 500 hsbw 5 callsubr endchar\n\nCure: add the Subr, or mend the number. A number that isn't whole, as by `11 2 div`, names none.\n\nTo find the step: `t1disasm FONT TEXT`, of Debian's t1utils, writes dictionaries and charstrings as text, and\n`t1asm --pfb TEXT FONT` makes the font of it; where lenIV is -1 it leaves charstrings raw. Glyph A is below `/A {`, the Subr of PATH `5>6` below\n`dup 6 {`. `t1check --trace A FONT` numbers what is executed, Subrs too, as STEP does.",
};

fn s01() -> &'static Page {
    &S01
}

static S02: Page = Page {
    code: "S02",
    anchor: "s02-calls-nested-too-deep",
    title: "calls nested too deep",
    text: "Level *must* (Type 1 Format, chapter 6): interpreters stop at the call.\n\nTen calls may be inside one another. Mostly a Subr calls itself, straight or by way of others.\n\n    Subr 5: 5 callsubr return\n    A: 0 500 hsbw 5 callsubr endchar\n    1: glyph A 5>5>5>5>5>5>5>5>5>5 25 S02 calls nested too deep\n       10 Subrs are being executed\n\nMended:\n\n    Subr 5: return\n\nCure: mend the Subr's number; or put what the innermost Subrs do in their place.\n\nTo find the step: `t1disasm FONT TEXT`, of Debian's t1utils, writes dictionaries and charstrings as text, and\n`t1asm --pfb TEXT FONT` makes the font of it; where lenIV is -1 it leaves charstrings raw. Glyph A is below `/A {`, the Subr of PATH `5>6` below\n`dup 6 {`. `t1check --trace A FONT` numbers what is executed, Subrs too, as STEP does.",
};

fn s02() -> &'static Page {
    &S02
}

static S03: Page = Page {
    code: "S03",
    anchor: "s03-return-outside-a-subr",
    title: "return outside a Subr",
    text: "Level *must* (Type 1 Format, chapter 6): interpreters stop at the command, or leave it out.\n\n`return` goes back to the charstring that called. In a glyph there is none.\n\n    A: 0 500 hsbw return endchar\n    1: glyph A - 4 S03 return outside a Subr\n       no Subr is being executed\n\nMended:\n\n    A: 0 500 hsbw endchar\n\nCure: remove it; where the glyph was to end there, write endchar.\n\nTo find the step: `t1disasm FONT TEXT`, of Debian's t1utils, writes dictionaries and charstrings as text, and\n`t1asm --pfb TEXT FONT` makes the font of it; where lenIV is -1 it leaves charstrings raw. Glyph A is below `/A {`, the Subr of PATH `5>6` below\n`dup 6 {`. `t1check --trace A FONT` numbers what is executed, Subrs too, as STEP does.",
};

fn s03() -> &'static Page {
    &S03
}

static S04: Page = Page {
    code: "S04",
    anchor: "s04-subr-without-return",
    title: "Subr without return",
    text: "Level *must* (Type 1 Format, chapter 6): interpreters stop at its end, or go on in the glyph.\n\nA Subr has to end with `return`, or end the glyph by endchar or seac. The line is at the end of the bytes, which a trace writes as `end`; there is one\nfor each call.\n\n    Subr 5: 100 hlineto\n    A: 0 500 hsbw 50 hmoveto 5 callsubr closepath endchar\n    1: glyph A 5 10 S04 Subr without return\n       Subr 5 ends\n\nMended:\n\n    Subr 5: 100 hlineto return\n\nCure: write `return` at the Subr's end; where its bytes were cut, take it from its source again.\n\nTo find the step: `t1disasm FONT TEXT`, of Debian's t1utils, writes dictionaries and charstrings as text, and\n`t1asm --pfb TEXT FONT` makes the font of it; where lenIV is -1 it leaves charstrings raw. Glyph A is below `/A {`, the Subr of PATH `5>6` below\n`dup 6 {`. `t1check --trace A FONT` numbers what is executed, Subrs too, as STEP does.",
};

fn s04() -> &'static Page {
    &S04
}

static GE01: Page = Page {
    code: "GE01",
    anchor: "ge01-no-endchar",
    title: "no endchar",
    text: "Level *must* (Type 1 Format, chapter 6): interpreters refuse the glyph, or draw what they have.\n\nA glyph has to end with endchar, or with seac. An empty charstring breaks this rule too.\n\n    A: 0 500 hsbw 50 hmoveto 100 hlineto closepath\n    1: glyph A - 9 GE01 no endchar\n\nMended:\n\n    A: 0 500 hsbw 50 hmoveto 100 hlineto closepath endchar\n\nCure: write endchar at the end; where the charstring was cut, take the font from its source again.\n\nTo find the step: `t1disasm FONT TEXT`, of Debian's t1utils, writes dictionaries and charstrings as text, and\n`t1asm --pfb TEXT FONT` makes the font of it; where lenIV is -1 it leaves charstrings raw. Glyph A is below `/A {`, the Subr of PATH `5>6` below\n`dup 6 {`. `t1check --trace A FONT` numbers what is executed, Subrs too, as STEP does.",
};

fn ge01() -> &'static Page {
    &GE01
}

static GE02: Page = Page {
    code: "GE02",
    anchor: "ge02-tokens-after-the-end",
    title: "tokens after the end",
    text: "Level *tidy* (Type 1 Format, chapter 6): an interpreter has ended the glyph before.\n\nWhat follows endchar or seac is never executed. Either it is left over, or endchar comes too early. In a Subr one `return` may follow, since some tools\nend each Subr so.\n\n    A: 0 500 hsbw endchar 50 hmoveto 100 hlineto closepath endchar\n    1: glyph A - 4 GE02 tokens after the end\n       the number 50 comes next\n\nMended:\n\n    A: 0 500 hsbw 50 hmoveto 100 hlineto closepath endchar\n\nHow much it matters: what is left over does no harm, and 19 of 1,454 real fonts have it in 690 places. An endchar that comes too early loses a part\nof the glyph: look at it once.\n\nCure: remove what follows, as an endchar after seac; or the endchar that comes too early.\n\nTo find the step: `t1disasm FONT TEXT`, of Debian's t1utils, writes dictionaries and charstrings as text, and\n`t1asm --pfb TEXT FONT` makes the font of it; where lenIV is -1 it leaves charstrings raw. Glyph A is below `/A {`, the Subr of PATH `5>6` below\n`dup 6 {`. `t1check --trace A FONT` numbers what is executed, Subrs too, as STEP does.",
};

fn ge02() -> &'static Page {
    &GE02
}

static W01: Page = Page {
    code: "W01",
    anchor: "w01-hsbw-or-sbw-not-first",
    title: "hsbw or sbw not first",
    text: "Level *must* (Type 1 Format, chapter 6): interpreters refuse the glyph, or place it elsewhere.\n\nNumbers, calls of Subrs and div may come before; the first clearing command has to be hsbw or sbw.\n\n    A: 50 hmoveto 100 hlineto closepath endchar\n    1: glyph A - 2 W01 hsbw or sbw not first\n       hmoveto is there\n\nMended:\n\n    A: 0 500 hsbw 50 hmoveto 100 hlineto closepath endchar\n\nCure: write the sidebearing and the width first; where they come later, move them there.\n\nTo find the step: `t1disasm FONT TEXT`, of Debian's t1utils, writes dictionaries and charstrings as text, and\n`t1asm --pfb TEXT FONT` makes the font of it; where lenIV is -1 it leaves charstrings raw. Glyph A is below `/A {`, the Subr of PATH `5>6` below\n`dup 6 {`. `t1check --trace A FONT` numbers what is executed, Subrs too, as STEP does.",
};

fn w01() -> &'static Page {
    &W01
}

static W02: Page = Page {
    code: "W02",
    anchor: "w02-hsbw-or-sbw-again",
    title: "hsbw or sbw again",
    text: "Level *must* (Type 1 Format, chapter 6): interpreters draw the rest elsewhere, or refuse the glyph.\n\nA second hsbw sets the current point back as well. Where another clearing command comes before the only hsbw, there are two lines: W01 at that command,\nand W02 at hsbw.\n\n    A: 0 500 hsbw 0 600 hsbw endchar\n    1: glyph A - 6 W02 hsbw or sbw again\n       step 3 set the width\n\nMended:\n\n    A: 0 600 hsbw endchar\n\nCure: keep the one that is right; a Subr that is called twice, or for several glyphs, shouldn't have it.\n\nTo find the step: `t1disasm FONT TEXT`, of Debian's t1utils, writes dictionaries and charstrings as text, and\n`t1asm --pfb TEXT FONT` makes the font of it; where lenIV is -1 it leaves charstrings raw. Glyph A is below `/A {`, the Subr of PATH `5>6` below\n`dup 6 {`. `t1check --trace A FONT` numbers what is executed, Subrs too, as STEP does.",
};

fn w02() -> &'static Page {
    &W02
}

static P01: Page = Page {
    code: "P01",
    anchor: "p01-drawing-without-a-move",
    title: "drawing without a move",
    text: "Level *must* (Type 1 Format, chapter 6): interpreters begin the path at different points, or refuse the glyph.\n\nEach path begins with a move (rmoveto, hmoveto, vmoveto), the one after a closepath as well. Each line and curve of a path without one has its line in\nthe report.\n\n    A: 0 500 hsbw 100 hlineto closepath endchar\n    1: glyph A - 5 P01 drawing without a move\n       no move so far\n\nMended:\n\n    A: 0 500 hsbw 0 hmoveto 100 hlineto closepath endchar\n\nCure: write a move before it; it may be `0 hmoveto`, which stays where it is. Flex counts as one curve: its seven moves begin no path.\n\nTo find the step: `t1disasm FONT TEXT`, of Debian's t1utils, writes dictionaries and charstrings as text, and\n`t1asm --pfb TEXT FONT` makes the font of it; where lenIV is -1 it leaves charstrings raw. Glyph A is below `/A {`, the Subr of PATH `5>6` below\n`dup 6 {`. `t1check --trace A FONT` numbers what is executed, Subrs too, as STEP does.",
};

fn p01() -> &'static Page {
    &P01
}

static P02: Page = Page {
    code: "P02",
    anchor: "p02-path-not-closed",
    title: "path not closed",
    text: "Level *should* (Type 1 Format, chapter 6): a filled path looks the same, and one that is stroked stays open.\n\nclosepath is missing, also before endchar. The reason says where the path's first line or curve begins, and where its last one ends.\n\n    A: 0 500 hsbw 50 hmoveto 100 hlineto endchar\n    1: glyph A - 8 P02 path not closed\n       from 50 0 to 150 0\n\nMended:\n\n    A: 0 500 hsbw 50 hmoveto 100 hlineto closepath endchar\n\nCure: write closepath before the command that the line names.\n\nTo find the step: `t1disasm FONT TEXT`, of Debian's t1utils, writes dictionaries and charstrings as text, and\n`t1asm --pfb TEXT FONT` makes the font of it; where lenIV is -1 it leaves charstrings raw. Glyph A is below `/A {`, the Subr of PATH `5>6` below\n`dup 6 {`. `t1check --trace A FONT` numbers what is executed, Subrs too, as STEP does.",
};

fn p02() -> &'static Page {
    &P02
}

static P03: Page = Page {
    code: "P03",
    anchor: "p03-closepath-without-a-path",
    title: "closepath without a path",
    text: "Level *tidy* (Type 1 Format, chapter 6): no interpreter draws anything for it.\n\nA closepath occurs twice, or the lines and curves of the path are missing.\n\n    A: 0 500 hsbw 50 hmoveto closepath endchar\n    1: glyph A - 6 P03 closepath without a path\n       nothing is drawn so far\n\nMended:\n\n    A: 0 500 hsbw 50 hmoveto 100 hlineto closepath endchar\n\nHow much it matters: nothing different is drawn, unless lines are missing. No rule is broken more often: 13,842 times in 135 of 1,454 real fonts, and\n99 of these break no other rule, since some tools write each closepath twice.\n\nCure: remove the closepath; or write what is missing. A move from which nothing is drawn can go as well, but the next one has to move as far as\nboth did: `50 hmoveto closepath 10 20 rmoveto` becomes `60 20 rmoveto`.\n\nTo find the step: `t1disasm FONT TEXT`, of Debian's t1utils, writes dictionaries and charstrings as text, and\n`t1asm --pfb TEXT FONT` makes the font of it; where lenIV is -1 it leaves charstrings raw. Glyph A is below `/A {`, the Subr of PATH `5>6` below\n`dup 6 {`. `t1check --trace A FONT` numbers what is executed, Subrs too, as STEP does.",
};

fn p03() -> &'static Page {
    &P03
}

static H01: Page = Page {
    code: "H01",
    anchor: "h01-stem-after-drawing",
    title: "stem after drawing",
    text: "Level *should* (Type 1 Format, chapter 6): hints have no effect on what was drawn before.\n\nA stem holds for what is drawn after it. Rasterisers either ignore a later one or distort the outline.\n\n    A: 0 500 hsbw 50 hmoveto 100 hlineto closepath 0 20 hstem endchar\n    1: glyph A - 11 H01 stem after drawing\n       drawn at step 7\n\nMended:\n\n    A: 0 500 hsbw 0 20 hstem 50 hmoveto 100 hlineto closepath endchar\n\nCure: move the stem before the first path. Where it is meant for later paths alone, put it in a Subr, and replace the hints by that.\n\nTo find the step: `t1disasm FONT TEXT`, of Debian's t1utils, writes dictionaries and charstrings as text, and\n`t1asm --pfb TEXT FONT` makes the font of it; where lenIV is -1 it leaves charstrings raw. Glyph A is below `/A {`, the Subr of PATH `5>6` below\n`dup 6 {`. `t1check --trace A FONT` numbers what is executed, Subrs too, as STEP does.",
};

fn h01() -> &'static Page {
    &H01
}

static H02: Page = Page {
    code: "H02",
    anchor: "h02-stems-overlap",
    title: "stems overlap",
    text: "Level *should* (Type 1 Format, chapter 6): one of the stems has no effect, or both are moved against one another.\n\nOf two stems that overlap a rasteriser can't say which one an edge belongs to. Stems that only touch don't overlap. A stem is compared with those of its\nown command, and with the first 96 of its direction since the glyph's beginning or the last hint replacement. The reason names the first stem that\noverlaps and the step that set it. Both stems may be of one command.\n\n    A: 0 500 hsbw 0 20 hstem 15 20 hstem endchar\n    1: glyph A - 9 H02 stems overlap\n       15 to 35 and 0 to 20, set at step 6, share 5\n\nMended:\n\n    Subr 5: 15 20 hstem return\n    A: 0 500 hsbw 0 20 hstem 5 1 3 callothersubr pop callsubr endchar\n\nA *ghost hint*, whose width is exactly -20 or -21, is compared by these numbers in edition 1, and overlaps nothing in the others.\n\nHow much it matters: hints act at small sizes and low resolutions. 190 of 1,454 real fonts have 2,701 such lines, 1,903 of these in lmodern; in\nedition 2 there are 24 fewer.\n\nCure: one stem for each stroke. If both are needed, replace the hints, as in the mended example, and repeat the other stems that still hold. A Subr of\nstems that is called without a hint replacement adds them to those that hold.\n\nTo find the step: `t1disasm FONT TEXT`, of Debian's t1utils, writes dictionaries and charstrings as text, and\n`t1asm --pfb TEXT FONT` makes the font of it; where lenIV is -1 it leaves charstrings raw. Glyph A is below `/A {`, the Subr of PATH `5>6` below\n`dup 6 {`. `t1check --trace A FONT` numbers what is executed, Subrs too, as STEP does.",
};

fn h02() -> &'static Page {
    &H02
}

static H03: Page = Page {
    code: "H03",
    anchor: "h03-stem-of-zero-width",
    title: "stem of zero width",
    text: "Level *should* (Type 1 Format, chapter 6): the hint has no effect.\n\nMostly a width was rounded to 0, or a number was lost: the width of `20 hstem` is 0 as well, with C04 beside it.\n\n    A: 0 500 hsbw 100 0 vstem endchar\n    1: glyph A - 6 H03 stem of zero width\n       the stem is at 100\n\nMended:\n\n    A: 0 500 hsbw 100 20 vstem endchar\n\nHow much it matters: the edge gets no hint. 19 of 1,454 real fonts have 62 such stems.\n\nCure: write the stroke's width, or remove the stem. Where one edge alone is to be held, write a ghost hint, of width -20 or -21, and check by edition 2\nor 3.\n\nTo find the step: `t1disasm FONT TEXT`, of Debian's t1utils, writes dictionaries and charstrings as text, and\n`t1asm --pfb TEXT FONT` makes the font of it; where lenIV is -1 it leaves charstrings raw. Glyph A is below `/A {`, the Subr of PATH `5>6` below\n`dup 6 {`. `t1check --trace A FONT` numbers what is executed, Subrs too, as STEP does.",
};

fn h03() -> &'static Page {
    &H03
}

static H04: Page = Page {
    code: "H04",
    anchor: "h04-unequal-stem3",
    title: "unequal stem3",
    text: "Level *should* (Type 1 Format, chapter 6): the strokes may be drawn unequal at small sizes.\n\nhstem3 and vstem3 are for three strokes that a rasteriser keeps evenly apart, as those of `m` or of the sign `≡`: the outer two have to be\nequally wide, and the middle of the second has to be half-way between their middles. The three are taken in the order in which they are written.\n\n    A: 0 500 hsbw 50 30 150 30 250 40 vstem3 endchar\n    1: glyph A - 10 H04 unequal stem3\n       widths 30 30 40, middles 65 165 270\n\nMended:\n\n    A: 0 500 hsbw 50 30 150 30 250 30 vstem3 endchar\n\nHow much it matters: often a middle was rounded. Of 195 such places in 1,454 real fonts, 169 had outer strokes of equal width and a middle at most\nhalf a unit off.\n\nCure: mend the numbers where the strokes are even; otherwise write three stems, each by a command of its own.\n\nTo find the step: `t1disasm FONT TEXT`, of Debian's t1utils, writes dictionaries and charstrings as text, and\n`t1asm --pfb TEXT FONT` makes the font of it; where lenIV is -1 it leaves charstrings raw. Glyph A is below `/A {`, the Subr of PATH `5>6` below\n`dup 6 {`. `t1check --trace A FONT` numbers what is executed, Subrs too, as STEP does.",
};

fn h04() -> &'static Page {
    &H04
}

static R01: Page = Page {
    code: "R01",
    anchor: "r01-no-pop-after-hint-replacement",
    title: "no pop after hint replacement",
    text: "Level *must* (Type 1 Format, chapter 8): a number is left over, which a later command takes.\n\nOtherSubr 3 takes a Subr's number and returns the number to be called: that one, or 3, a Subr that does nothing, where an interpreter can't replace\nhints. The line is at the step after callothersubr, whatever it is.\n\n    A: 0 500 hsbw 5 1 3 callothersubr endchar\n    1: glyph A - 8 R01 no pop after hint replacement\n       endchar is there\n\nMended:\n\n    Subr 5: 0 20 hstem return\n    A: 0 500 hsbw 5 1 3 callothersubr pop callsubr endchar\n\nCure: write the whole row of commands, with a Subr that sets the stems.\n\nTo find the step: `t1disasm FONT TEXT`, of Debian's t1utils, writes dictionaries and charstrings as text, and\n`t1asm --pfb TEXT FONT` makes the font of it; where lenIV is -1 it leaves charstrings raw. Glyph A is below `/A {`, the Subr of PATH `5>6` below\n`dup 6 {`. `t1check --trace A FONT` numbers what is executed, Subrs too, as STEP does.",
};

fn r01() -> &'static Page {
    &R01
}

static R02: Page = Page {
    code: "R02",
    anchor: "r02-no-callsubr-after-hint-replacement",
    title: "no callsubr after hint replacement",
    text: "Level *must* (Type 1 Format, chapter 8): hints of both parts apply at once, or a number is left over.\n\ncallsubr has to follow pop at once: some interpreters know a hint replacement by this row of commands. A `return` in between breaks this rule as well.\n\n    A: 0 500 hsbw 5 1 3 callothersubr pop hmoveto endchar\n    1: glyph A - 9 R02 no callsubr after hint replacement\n       hmoveto is there\n\nMended:\n\n    Subr 5: 0 20 hstem return\n    A: 0 500 hsbw 5 1 3 callothersubr pop callsubr endchar\n\nCure: write callsubr right after pop. Subr 4, which many fonts have for it, is `1 3 callothersubr pop callsubr return`.\n\nTo find the step: `t1disasm FONT TEXT`, of Debian's t1utils, writes dictionaries and charstrings as text, and\n`t1asm --pfb TEXT FONT` makes the font of it; where lenIV is -1 it leaves charstrings raw. Glyph A is below `/A {`, the Subr of PATH `5>6` below\n`dup 6 {`. `t1check --trace A FONT` numbers what is executed, Subrs too, as STEP does.",
};

fn r02() -> &'static Page {
    &R02
}

static X01: Page = Page {
    code: "X01",
    anchor: "x01-flex-inside-flex",
    title: "flex inside flex",
    text: "Level *must* (Type 1 Format, chapter 8): interpreters lose points of the curves.\n\nA flex can't hold another one. Interpreters count its points anew, or from the first start on.\n\n    A: 0 500 hsbw 0 hmoveto 0 1 callothersubr 0 1 callothersubr\n       1 hmoveto 0 2 callothersubr … (seven times) 50 7 0 3 0 callothersubr pop pop setcurrentpoint closepath endchar\n    1: glyph A - 11 X01 flex inside flex\n       the flex began at step 8\n\nMended:\n\n    A: 0 500 hsbw 0 hmoveto 0 1 callothersubr\n       1 hmoveto 0 2 callothersubr … (seven times) 50 7 0 3 0 callothersubr pop pop setcurrentpoint closepath endchar\n\nCure: remove one start; where the end of the flex before it is missing, write that.\n\nTo find the step: `t1disasm FONT TEXT`, of Debian's t1utils, writes dictionaries and charstrings as text, and\n`t1asm --pfb TEXT FONT` makes the font of it; where lenIV is -1 it leaves charstrings raw. Glyph A is below `/A {`, the Subr of PATH `5>6` below\n`dup 6 {`. `t1check --trace A FONT` numbers what is executed, Subrs too, as STEP does.",
};

fn x01() -> &'static Page {
    &X01
}

static X02: Page = Page {
    code: "X02",
    anchor: "x02-flex-call-outside-flex",
    title: "flex call outside flex",
    text: "Level *must* (Type 1 Format, chapter 8): interpreters refuse the glyph, or move the point.\n\nA point or an end belongs to no flex: the start is missing, or the end occurs twice.\n\n    A: 0 500 hsbw 0 2 callothersubr endchar\n    1: glyph A - 6 X02 flex call outside flex\n       OtherSubr 2 with no arguments, a point of a flex\n\nMended:\n\n    A: 0 500 hsbw endchar\n\nCure: write the start before the first of the seven moves; or remove the call.\n\nTo find the step: `t1disasm FONT TEXT`, of Debian's t1utils, writes dictionaries and charstrings as text, and\n`t1asm --pfb TEXT FONT` makes the font of it; where lenIV is -1 it leaves charstrings raw. Glyph A is below `/A {`, the Subr of PATH `5>6` below\n`dup 6 {`. `t1check --trace A FONT` numbers what is executed, Subrs too, as STEP does.",
};

fn x02() -> &'static Page {
    &X02
}

static X03: Page = Page {
    code: "X03",
    anchor: "x03-command-inside-flex",
    title: "command inside flex",
    text: "Level *must* (Type 1 Format, chapter 8): interpreters lose points of the curves, or draw lines between them.\n\nBetween start and end only moves are allowed, with their points. After a start whose end is missing each further clearing command but a move has this\nline, endchar too.\n\n    A: 0 500 hsbw 0 hmoveto 0 1 callothersubr 5 vlineto\n       1 hmoveto 0 2 callothersubr … (seven times) 50 7 5 3 0 callothersubr pop pop setcurrentpoint closepath endchar\n    1: glyph A - 10 X03 command inside flex\n       the flex began at step 8\n\nMended:\n\n    A: 0 500 hsbw 0 hmoveto 5 vlineto 0 1 callothersubr\n       1 hmoveto 0 2 callothersubr … (seven times) 50 7 5 3 0 callothersubr pop pop setcurrentpoint closepath endchar\n\nCure: move the command before the start or after the end; what belongs to the flex is written as moves.\n\nTo find the step: `t1disasm FONT TEXT`, of Debian's t1utils, writes dictionaries and charstrings as text, and\n`t1asm --pfb TEXT FONT` makes the font of it; where lenIV is -1 it leaves charstrings raw. Glyph A is below `/A {`, the Subr of PATH `5>6` below\n`dup 6 {`. `t1check --trace A FONT` numbers what is executed, Subrs too, as STEP does.",
};

fn x03() -> &'static Page {
    &X03
}

static X04: Page = Page {
    code: "X04",
    anchor: "x04-flex-points-are-not-seven-pairs",
    title: "flex points are not seven pairs",
    text: "Level *must* (Type 1 Format, chapter 8): interpreters draw other curves, or refuse the glyph.\n\nEach point comes after one move, and there are seven of both. A move without its point has a line at each later point and at the end.\n\n    A: 0 500 hsbw 0 hmoveto 0 1 callothersubr\n       1 hmoveto 0 2 callothersubr … (six times) 50 6 0 3 0 callothersubr pop pop setcurrentpoint closepath endchar\n    1: glyph A - 44 X04 flex points are not seven pairs\n       6 moves and 6 points; 7 of each are needed\n\nMended:\n\n    A: 0 500 hsbw 0 hmoveto 0 1 callothersubr\n       1 hmoveto 0 2 callothersubr … (seven times) 50 7 0 3 0 callothersubr pop pop setcurrentpoint closepath endchar\n\nCure: write a point after each move, and seven of both; a move that leads nowhere is `0 hmoveto`.\n\nTo find the step: `t1disasm FONT TEXT`, of Debian's t1utils, writes dictionaries and charstrings as text, and\n`t1asm --pfb TEXT FONT` makes the font of it; where lenIV is -1 it leaves charstrings raw. Glyph A is below `/A {`, the Subr of PATH `5>6` below\n`dup 6 {`. `t1check --trace A FONT` numbers what is executed, Subrs too, as STEP does.",
};

fn x04() -> &'static Page {
    &X04
}

static X05: Page = Page {
    code: "X05",
    anchor: "x05-flex-ends-elsewhere",
    title: "flex ends elsewhere",
    text: "Level *must* (Type 1 Format, chapter 8): what comes after the curves is drawn elsewhere by some interpreters.\n\nThe end names the point where the flex ends, in the glyph's own coordinates, as hsbw and all moves, lines and curves before have led there.\nAn interpreter that draws the flex as a line takes this point, another one adds up the moves: if they differ, what follows is shifted.\n\n    A: 0 500 hsbw 0 hmoveto 0 1 callothersubr\n       1 hmoveto 0 2 callothersubr … (seven times) 50 8 0 3 0 callothersubr pop pop setcurrentpoint closepath endchar\n    1: glyph A - 49 X05 flex ends elsewhere\n       the pen is at 7 0, the end names 8 0\n\nMended:\n\n    A: 0 500 hsbw 0 hmoveto 0 1 callothersubr\n       1 hmoveto 0 2 callothersubr … (seven times) 50 7 0 3 0 callothersubr pop pop setcurrentpoint closepath endchar\n\nCure: write the point where the reason says that the pen is. Later flexes of the glyph were mostly counted on from the wrong point: their ends have this\nline then, and are mended in the same way. If with the new points the path no longer ends where it began, the old point was right: mend a move of the\nflex.\n\nhsbw begins at the sidebearing and 0, and closepath leaves the current point where it is. Where moves have fractions, by div, the point has to be\ntheir exact sum.\n\nTo find the step: `t1disasm FONT TEXT`, of Debian's t1utils, writes dictionaries and charstrings as text, and\n`t1asm --pfb TEXT FONT` makes the font of it; where lenIV is -1 it leaves charstrings raw. Glyph A is below `/A {`, the Subr of PATH `5>6` below\n`dup 6 {`. `t1check --trace A FONT` numbers what is executed, Subrs too, as STEP does.",
};

fn x05() -> &'static Page {
    &X05
}

static X06: Page = Page {
    code: "X06",
    anchor: "x06-setcurrentpoint-outside-flex",
    title: "setcurrentpoint outside flex",
    text: "Level *must* (Type 1 Format, chapter 6): what comes after the curves is drawn elsewhere.\n\nsetcurrentpoint moves nothing by itself. Its one place is after the end of a flex and the two pops that fetch the point.\n\n    A: 0 500 hsbw 50 0 setcurrentpoint endchar\n    1: glyph A - 6 X06 setcurrentpoint outside flex\n\nMended:\n\n    A: 0 500 hsbw 50 hmoveto endchar\n\nCure: write a move where one is meant. After the end of a flex write `pop pop setcurrentpoint`, with nothing between.\n\nTo find the step: `t1disasm FONT TEXT`, of Debian's t1utils, writes dictionaries and charstrings as text, and\n`t1asm --pfb TEXT FONT` makes the font of it; where lenIV is -1 it leaves charstrings raw. Glyph A is below `/A {`, the Subr of PATH `5>6` below\n`dup 6 {`. `t1check --trace A FONT` numbers what is executed, Subrs too, as STEP does.",
};

fn x06() -> &'static Page {
    &X06
}

static O01: Page = Page {
    code: "O01",
    anchor: "o01-unknown-othersubr",
    title: "unknown OtherSubr",
    text: "Level *must* (Type 1 Format, chapter 8): interpreters do different things with the call.\n\nAn interpreter without PostScript doesn't know what the number means. OtherSubrs 14 to 18, of multiple master fonts, are unknown here too.\n\n    A: 0 500 hsbw 0 4 callothersubr endchar\n    1: glyph A - 6 O01 unknown OtherSubr\n       OtherSubr 4 with no arguments\n\nMended:\n\n    A: 0 500 hsbw endchar\n\nCure: write what the OtherSubr does in commands of chapter 6; or mend the number.\n\nTo find the step: `t1disasm FONT TEXT`, of Debian's t1utils, writes dictionaries and charstrings as text, and\n`t1asm --pfb TEXT FONT` makes the font of it; where lenIV is -1 it leaves charstrings raw. Glyph A is below `/A {`, the Subr of PATH `5>6` below\n`dup 6 {`. `t1check --trace A FONT` numbers what is executed, Subrs too, as STEP does.",
};

fn o01() -> &'static Page {
    &O01
}

static O02: Page = Page {
    code: "O02",
    anchor: "o02-bad-othersubr-count",
    title: "bad OtherSubr count",
    text: "Level *must* (Type 1 Format, chapter 6): interpreters stop at the call.\n\nThe number below the OtherSubr's says how many arguments it takes. Here the Subr's number is missing before a hint replacement.\n\n    A: 0 500 hsbw 1 3 callothersubr endchar\n    1: glyph A - 6 O02 bad OtherSubr count\n       the count is 1, none is there\n\nMended:\n\n    Subr 5: return\n    A: 0 500 hsbw 5 1 3 callothersubr pop callsubr endchar\n\nCure: write the arguments, then their count, then the number of the OtherSubr.\n\nTo find the step: `t1disasm FONT TEXT`, of Debian's t1utils, writes dictionaries and charstrings as text, and\n`t1asm --pfb TEXT FONT` makes the font of it; where lenIV is -1 it leaves charstrings raw. Glyph A is below `/A {`, the Subr of PATH `5>6` below\n`dup 6 {`. `t1check --trace A FONT` numbers what is executed, Subrs too, as STEP does.",
};

fn o02() -> &'static Page {
    &O02
}

static O03: Page = Page {
    code: "O03",
    anchor: "o03-wrong-count-for-this-othersubr",
    title: "wrong count for this OtherSubr",
    text: "Level *must* (Type 1 Format, chapter 8): interpreters take other numbers, or stop at the call.\n\nOtherSubr 0 takes three arguments, 1 and 2 take none, and 3 takes one. With another count it isn't executed as what it is.\n\n    A: 0 500 hsbw 0 0 callothersubr endchar\n    1: glyph A - 6 O03 wrong count for this OtherSubr\n       OtherSubr 0 with no arguments; it takes 3\n\nMended:\n\n    A: 0 500 hsbw endchar\n\nCure: write the count that belongs to the OtherSubr, and so many arguments.\n\nTo find the step: `t1disasm FONT TEXT`, of Debian's t1utils, writes dictionaries and charstrings as text, and\n`t1asm --pfb TEXT FONT` makes the font of it; where lenIV is -1 it leaves charstrings raw. Glyph A is below `/A {`, the Subr of PATH `5>6` below\n`dup 6 {`. `t1check --trace A FONT` numbers what is executed, Subrs too, as STEP does.",
};

fn o03() -> &'static Page {
    &O03
}

static O04: Page = Page {
    code: "O04",
    anchor: "o04-pop-of-nothing",
    title: "pop of nothing",
    text: "Level *must* (Type 1 Format, chapter 6): interpreters stop there, or go on with any number.\n\npop fetches a result of an OtherSubr. The end of a flex leaves two results, a hint replacement one, the start and the points none.\n\n    A: 0 500 hsbw pop endchar\n    1: glyph A - 4 O04 pop of nothing\n\nMended:\n\n    A: 0 500 hsbw endchar\n\nCure: remove the pop, or write the callothersubr before it.\n\nTo find the step: `t1disasm FONT TEXT`, of Debian's t1utils, writes dictionaries and charstrings as text, and\n`t1asm --pfb TEXT FONT` makes the font of it; where lenIV is -1 it leaves charstrings raw. Glyph A is below `/A {`, the Subr of PATH `5>6` below\n`dup 6 {`. `t1check --trace A FONT` numbers what is executed, Subrs too, as STEP does.",
};

fn o04() -> &'static Page {
    &O04
}

static K01: Page = Page {
    code: "K01",
    anchor: "k01-seac-code-is-not-0-to-255",
    title: "seac code is not 0 to 255",
    text: "Level *must* (Type 1 Format, chapter 6): interpreters refuse the glyph.\n\nAn interpreter looks a code up in a table of 256 names. A fraction is no code.\n\n    C: 0 500 hsbw 7 0 0 65 256 seac\n    1: glyph C - 9 K01 seac code is not 0 to 255\n       the accent's code is 256\n\nMended:\n\n    C: 0 500 hsbw 7 0 0 65 66 seac\n\nCure: write the code that the component's name has in StandardEncoding.\n\nTo find the step: `t1disasm FONT TEXT`, of Debian's t1utils, writes dictionaries and charstrings as text, and\n`t1asm --pfb TEXT FONT` makes the font of it; where lenIV is -1 it leaves charstrings raw. Glyph A is below `/A {`, the Subr of PATH `5>6` below\n`dup 6 {`. `t1check --trace A FONT` numbers what is executed, Subrs too, as STEP does.",
};

fn k01() -> &'static Page {
    &K01
}

static K02: Page = Page {
    code: "K02",
    anchor: "k02-seac-code-not-in-standardencoding",
    title: "seac code not in StandardEncoding",
    text: "Level *must* (Type 1 Format, chapter 6): a part of the glyph is missing.\n\nMostly the code is of another table, as the font's own Encoding. Here 146 is acute in ISOLatin1Encoding; in StandardEncoding that is 194. A code that is\nmissing counts as 0, which has no name.\n\n    C: 0 500 hsbw 7 0 0 65 146 seac\n    1: glyph C - 9 K02 seac code not in StandardEncoding\n       the accent's code 146 has no name\n\nMended:\n\n    acute: 7 500 hsbw endchar\n    C: 0 500 hsbw 7 0 0 65 194 seac\n\nCure: write the code of StandardEncoding. A character whose parts aren't both there can't be made by seac: draw it as one outline.\n\nTo find the step: `t1disasm FONT TEXT`, of Debian's t1utils, writes dictionaries and charstrings as text, and\n`t1asm --pfb TEXT FONT` makes the font of it; where lenIV is -1 it leaves charstrings raw. Glyph A is below `/A {`, the Subr of PATH `5>6` below\n`dup 6 {`. `t1check --trace A FONT` numbers what is executed, Subrs too, as STEP does.",
};

fn k02() -> &'static Page {
    &K02
}

static K03: Page = Page {
    code: "K03",
    anchor: "k03-seac-component-missing",
    title: "seac component missing",
    text: "Level *must* (Type 1 Format, chapter 6): a part of the glyph is missing, or interpreters refuse it.\n\nMostly a tool that took glyphs out of the font looked at the characters in use, and not at their parts. Here acute isn't in the font.\n\n    C: 0 500 hsbw 7 0 0 65 194 seac\n    1: glyph C - 9 K03 seac component missing\n       the accent's code 194 is acute, which is no glyph\n\nMended:\n\n    acute: 7 500 hsbw endchar\n\nCure: put the glyph back; or draw the character as one outline.\n\nTo find the step: `t1disasm FONT TEXT`, of Debian's t1utils, writes dictionaries and charstrings as text, and\n`t1asm --pfb TEXT FONT` makes the font of it; where lenIV is -1 it leaves charstrings raw. Glyph A is below `/A {`, the Subr of PATH `5>6` below\n`dup 6 {`. `t1check --trace A FONT` numbers what is executed, Subrs too, as STEP does.",
};

fn k03() -> &'static Page {
    &K03
}

static K04: Page = Page {
    code: "K04",
    anchor: "k04-seac-of-a-seac",
    title: "seac of a seac",
    text: "Level *must* (Type 1 Format, chapter 6): interpreters refuse the glyph, or draw a part of it.\n\nA component must be drawn by commands of its own. A glyph that names itself has this line too. A seac after the step limit of the edition counts as\nnone.\n\n    C: 0 500 hsbw 7 0 0 65 66 seac\n    D: 0 500 hsbw 0 0 0 65 67 seac\n    1: glyph D - 9 K04 seac of a seac\n       the base's code 65 is A and the accent's code 67 is C\n\nMended:\n\n    D: 0 500 hsbw 7 0 0 65 66 seac\n\nCure: name the parts that have an outline; if there are three, draw the character as one outline.\n\nTo find the step: `t1disasm FONT TEXT`, of Debian's t1utils, writes dictionaries and charstrings as text, and\n`t1asm --pfb TEXT FONT` makes the font of it; where lenIV is -1 it leaves charstrings raw. Glyph A is below `/A {`, the Subr of PATH `5>6` below\n`dup 6 {`. `t1check --trace A FONT` numbers what is executed, Subrs too, as STEP does.",
};

fn k04() -> &'static Page {
    &K04
}

static K05: Page = Page {
    code: "K05",
    anchor: "k05-accent-sidebearing-differs",
    title: "accent sidebearing differs",
    text: "Level *must* (Type 1 Format, chapter 6): interpreters put the accent at different places.\n\nASB has to be the sidebearing of the accent's own hsbw or sbw: some interpreters place the accent by the one, others by the other. Only the accent's\nsidebearing counts, and only if it is set within the step limit.\n\n    C: 0 500 hsbw 9 0 0 65 66 seac\n    1: glyph C - 9 K05 accent sidebearing differs\n       seac says 9, the accent's sidebearing is 7\n\nMended:\n\n    C: 0 500 hsbw 7 0 0 65 66 seac\n\nCure: write the accent's sidebearing for ASB. If it was changed by editing the accent, mend each seac that names it, and ADX with it where the accent\nshould stay in its place.\n\nTo find the step: `t1disasm FONT TEXT`, of Debian's t1utils, writes dictionaries and charstrings as text, and\n`t1asm --pfb TEXT FONT` makes the font of it; where lenIV is -1 it leaves charstrings raw. Glyph A is below `/A {`, the Subr of PATH `5>6` below\n`dup 6 {`. `t1check --trace A FONT` numbers what is executed, Subrs too, as STEP does.",
};

fn k05() -> &'static Page {
    &K05
}

static K06: Page = Page {
    code: "K06",
    anchor: "k06-seac-beside-other-commands",
    title: "seac beside other commands",
    text: "Level *must* (Type 1 Format, chapter 6): interpreters draw the other commands, or leave them out.\n\nseac is the whole of its glyph: only the width comes before it, by hsbw or sbw. Outlines and stems come from the components. A move counts, in a flex\ntoo.\n\n    C: 0 500 hsbw 10 20 hstem 7 0 0 65 66 seac\n    1: glyph C - 12 K06 seac beside other commands\n       an outline or a stem at step 6\n\nMended:\n\n    C: 0 500 hsbw 7 0 0 65 66 seac\n\nCure: remove the other commands; or draw the character as one outline.\n\nTo find the step: `t1disasm FONT TEXT`, of Debian's t1utils, writes dictionaries and charstrings as text, and\n`t1asm --pfb TEXT FONT` makes the font of it; where lenIV is -1 it leaves charstrings raw. Glyph A is below `/A {`, the Subr of PATH `5>6` below\n`dup 6 {`. `t1check --trace A FONT` numbers what is executed, Subrs too, as STEP does.",
};

fn k06() -> &'static Page {
    &K06
}

static K07: Page = Page {
    code: "K07",
    anchor: "k07-seac-component-without-sidebearing",
    title: "seac component without sidebearing",
    text: "Level *must* (Type 1 Format, chapter 6): interpreters put the part at different places, or refuse the glyph.\n\nseac places the accent by its sidebearing. The component has a line as well, mostly W01. hsbw or sbw after the step limit of the edition counts as none.\n\n    B: endchar\n    C: 0 500 hsbw 7 0 0 65 66 seac\n    1: glyph B - 1 W01 hsbw or sbw not first\n       endchar is there\n    2: glyph C - 9 K07 seac component without sidebearing\n       the base's code 65 is A and the accent's code 66 is B\n\nMended:\n\n    B: 7 500 hsbw endchar\n\nCure: write hsbw or sbw first in the component.\n\nTo find the step: `t1disasm FONT TEXT`, of Debian's t1utils, writes dictionaries and charstrings as text, and\n`t1asm --pfb TEXT FONT` makes the font of it; where lenIV is -1 it leaves charstrings raw. Glyph A is below `/A {`, the Subr of PATH `5>6` below\n`dup 6 {`. `t1check --trace A FONT` numbers what is executed, Subrs too, as STEP does.",
};

fn k07() -> &'static Page {
    &K07
}

static L01: Page = Page {
    code: "L01",
    anchor: "l01-step-limit",
    title: "step limit",
    text: "Level *must* (our own rule): the glyph isn't checked further, and an interpreter may take as long.\n\nThe first 100,000 steps of a glyph are checked, or 1,000,000 in editions 2 to 4. Real glyphs have some hundreds; but a few Subrs\nthat call one another keep a printer busy for a long time. STEP and PATH are those of the first step that isn't checked.\n\n    Subr 1: dotsection … (ten times) return\n    Subr 2: 1 callsubr … (ten times) return\n    Subr 3: 2 callsubr … (ten times) return\n    Subr 4: 3 callsubr … (ten times) return\n    Subr 5: 4 callsubr … (ten times) return\n    A: 0 500 hsbw 5 callsubr endchar\n    1: glyph A 5>4>3>2>1 100001 L01 step limit\n       more than 100000 steps\n\nMended:\n\n    A: 0 500 hsbw 4 callsubr endchar\n\n`A` has 133,337 steps. In edition 2 the font is clean.\n\nCure: `--trace A` shows which Subrs are executed again and again; mend their numbers. Where so many steps are meant, check by edition 2, 3 or 4, or waive\nthe rule for this glyph.\n\nTo find the step: `t1disasm FONT TEXT`, of Debian's t1utils, writes dictionaries and charstrings as text, and\n`t1asm --pfb TEXT FONT` makes the font of it; where lenIV is -1 it leaves charstrings raw. Glyph A is below `/A {`, the Subr of PATH `5>6` below\n`dup 6 {`. `t1check --trace A FONT` numbers what is executed, Subrs too, as STEP does.",
};

fn l01() -> &'static Page {
    &L01
}

static U01: Page = Page {
    code: "U01",
    anchor: "u01-waiver-not-used",
    title: "waiver not used",
    text: "Level *should* (our own rule): a waiver says more than the font needs, so a fault that comes back is hidden.\n\nThe waiver matches nothing: the fault was mended, or the glyph was renamed or removed. Or the name or the code is misspelled, also by a byte order mark\nbefore the first name, which isn't seen. Or the edition is another one. So a waiver goes when its fault goes, and can't hide a new one. The whole font\ndecides, also where `--after` and `--max` omit lines. A waiver that occurs twice in the file has one line, by its first place. Here the file has the two\nlines `A GE01` and `A C05`.\n\n    A: 0 500 hsbw\n    1: waiver A C05 U01 waiver not used\n       no step of the glyph breaks this rule\n\nMended:\n\n    sed -i '/^A C05$/d' font.pfb.waivers\n\nCure: remove the line, each time that it occurs there, or mend its name or its code.",
};

fn u01() -> &'static Page {
    &U01
}

static F15: Page = Page {
    code: "F15",
    anchor: "f15-fontmatrix-is-not-six-numbers",
    title: "FontMatrix is not six numbers",
    text: "Level *should* (Type 1 Format, chapter 2): without the entry an interpreter refuses the font; one that t1check can't read may be right.\n\nFontMatrix says how units of glyph space become units of the page; nearly every font has 1,000 units to the em. A rasteriser multiplies each\ncoordinate by it. With another count of numbers it stops with an error, or draws nothing. Here the last number is missing.\n\n    /FontMatrix [0.001 0 0 0.001 0] def\n    1: font FontMatrix 0 F15 FontMatrix is not six numbers\n       FontMatrix has 5 numbers; 6 are needed\n\nMended:\n\n    /FontMatrix [0.001 0 0 0.001 0 0] def\n\nA number with an exponent is right in PostScript, but it is a word here, and so the list is none of numbers:\n\n    /FontMatrix [1e-3 0 0 1e-3 0 0] def\n    1: font FontMatrix 0 F15 FontMatrix is not six numbers\n       FontMatrix is no list of numbers\n\nCure: `/FontMatrix [0.001 0 0 0.001 0 0] def` in the clear text, or your font's own six numbers, without exponents.",
};

fn f15() -> &'static Page {
    &F15
}

static F16: Page = Page {
    code: "F16",
    anchor: "f16-fontbbox-is-not-four-numbers",
    title: "FontBBox is not four numbers",
    text: "Level *must* (Type 1 Format, chapter 2): an interpreter refuses the font, or cuts glyphs off.\n\nFontBBox is the box that encloses all glyphs: left, bottom, right and top. A rasteriser reserves room for a glyph by it. Without the entry an\ninterpreter fails, or guesses. Here the top is missing.\n\n    /FontBBox {0 0 1000} def\n    1: font FontBBox 0 F16 FontBBox is not four numbers\n       FontBBox has 3 numbers; 4 are needed\n\nMended:\n\n    /FontBBox {0 0 1000 1000} def\n\nCure: write four numbers, in the clear text. `{0 0 0 0}` says that the box isn't known.",
};

fn f16() -> &'static Page {
    &F16
}

static F17: Page = Page {
    code: "F17",
    anchor: "f17-fontbbox-has-its-corners-exchanged",
    title: "FontBBox has its corners exchanged",
    text: "Level *should* (Type 1 Format, chapter 2): glyphs may be cut off, or not be drawn.\n\nThe lower left corner comes first. If its x is greater than that of the other corner the line has the index 0, and if its y is greater the index 1.\nSuch a box encloses nothing, so a rasteriser that trusts it reserves no room. Here left is 10 and right is 5.\n\n    /FontBBox {10 0 5 1000} def\n    1: font FontBBox 0 F17 FontBBox has its corners exchanged\n       10 is above 5\n\nMended:\n\n    /FontBBox {5 0 10 1000} def\n\nCure: write the lesser x and the lesser y first, here `{5 0 10 1000}`.",
};

fn f17() -> &'static Page {
    &F17
}

static F18: Page = Page {
    code: "F18",
    anchor: "f18-xuid-malformed",
    title: "XUID malformed",
    text: "Level *tidy* (our own rule): glyphs are drawn, but a printer can't keep them under this number.\n\nXUID is a list of numbers that identifies the font, as UniqueID does. An interpreter that keeps drawn glyphs looks for them by it. It has to be a list\nwith at least one number. A number of ten digits or more isn't read here, so the list is none of numbers.\n\n    /XUID [] def\n    1: font XUID 0 F18 XUID malformed\n       XUID has no numbers\n\nMended:\n\n    /XUID [1000] def\n\nCure: leave the entry out; or write the list that is registered for the font.",
};

fn f18() -> &'static Page {
    &F18
}

static F19: Page = Page {
    code: "F19",
    anchor: "f19-xuid-number-out-of-range",
    title: "XUID number out of range",
    text: "Level *tidy* (our own rule): glyphs are drawn, but may be kept under a wrong number, or not be kept.\n\nEach number has 24 bits, as a UniqueID has. A rasteriser that stores it so mixes up fonts whose numbers differ elsewhere. The first 16 numbers are\nlooked at. INDEX is the number's place.\n\n    /XUID [1000 -1 2.5 16777216] def\n    1: font XUID 1 F19 XUID number out of range\n       -1; a whole number from 0 to 16777215 is needed\n    2: font XUID 2 F19 XUID number out of range\n       2.5; a whole number from 0 to 16777215 is needed\n    3: font XUID 3 F19 XUID number out of range\n       16777216; a whole number from 0 to 16777215 is needed\n\nMended:\n\n    /XUID [1000 1 2 3] def\n\nCure: mend the number, or leave the entry out.",
};

fn f19() -> &'static Page {
    &F19
}

static F20: Page = Page {
    code: "F20",
    anchor: "f20-languagegroup-is-not-0-or-1",
    title: "LanguageGroup is not 0 or 1",
    text: "Level *should* (Type 1 Format, chapter 5): hints may be applied by the wrong method.\n\nBy this entry a rasteriser chooses how it evens out strokes: 0 is for Latin and similar scripts, 1 for ideographs as those of Chinese and\nJapanese. Other numbers mean nothing. Without the entry it is 0.\n\n    /LanguageGroup 2 def\n    1: font LanguageGroup 0 F20 LanguageGroup is not 0 or 1\n       LanguageGroup is 2; 0 or 1 is needed\n\nMended:\n\n    /LanguageGroup 1 def\n\nHow much it matters: 14 of 1,906 real fonts have another number, each about 4,000,000, which none can have meant.\n\nCure: `/LanguageGroup 1 def` in Private for ideographs; for other fonts leave the entry out.",
};

fn f20() -> &'static Page {
    &F20
}

static F21: Page = Page {
    code: "F21",
    anchor: "f21-subr-has-no-return",
    title: "Subr has no return",
    text: "Level *should* (Type 1 Format, chapter 6): where no glyph calls the Subr, nothing different is drawn.\n\nA Subr goes back to its caller by `return`. This rule looks at the bytes of each Subr, decrypted, whether a glyph calls it or not; it executes none. A\n`return` counts wherever it is, also after endchar. A rasteriser that reads all Subrs beforehand may refuse the font, or read on after the last byte.\nA Subr that is shorter than lenIV has this line too. Here no glyph calls Subr 5.\n\n    Subr 5: endchar\n    1: font Subrs 5 F21 Subr has no return\n       it ends with endchar\n\nMended:\n\n    Subr 5: endchar return\n\nIf a glyph calls such a Subr and its end is reached, S04 says so at that step.\n\nCure: write `return` at the Subr's end, also after an endchar; or leave a Subr out that nothing calls.",
};

fn f21() -> &'static Page {
    &F21
}

static Z12: Page = Page {
    code: "Z12",
    anchor: "z12-no-bluevalues",
    title: "no BlueValues",
    text: "Level *must* (Type 1 Format, chapter 5): an interpreter may refuse the font.\n\nBlueValues is required in Private, also where the font has no zones: then it is an empty list. A rasteriser that looks for it and finds nothing fails,\nor applies no hints.\n\n    % Private without /BlueValues\n    1: font BlueValues 0 Z12 no BlueValues\n       BlueValues is not there; [] would do\n\nMended:\n\n    /BlueValues [] def\n\nHow much it matters: 41 of 1,906 real fonts have no such entry, most of them for Arabic and Persian.\n\nCure: `/BlueValues [] def` in Private; or better the font's zones, as `[-15 0 450 460 700 715]`, each a bottom and a top.",
};

fn z12() -> &'static Page {
    &Z12
}

static Z13: Page = Page {
    code: "Z13",
    anchor: "z13-standard-width-is-not-above-0",
    title: "standard width is not above 0",
    text: "Level *should* (our own rule): stems of the usual width are drawn too thin or uneven.\n\nA rasteriser draws stems that are nearly as wide as StdHW or StdVW just so wide. A width of 0 or less is that of no stroke. The first number alone is\nlooked at.\n\n    /StdHW [0] def\n    1: font StdHW 0 Z13 standard width is not above 0\n       the width is 0; more than 0 is needed\n\nMended:\n\n    /StdHW [30] def\n\nHow much it matters: 4 of 1,906 real fonts have 8 such widths: they are fonts of symbols.\n\nCure: write the most frequent width of horizontal (StdVW: vertical) stems; or leave the entry out.",
};

fn z13() -> &'static Page {
    &Z13
}

static Z14: Page = Page {
    code: "Z14",
    anchor: "z14-zone-number-is-not-whole",
    title: "zone number is not whole",
    text: "Level *should* (Type 1 Format, chapter 5): a rasteriser may cut the fraction, and so move the zone's edge.\n\nThe numbers of BlueValues, OtherBlues, FamilyBlues and FamilyOtherBlues are whole units of glyph space. A rasteriser that reads whole numbers stops at\na fraction, or drops it, and edges are no longer in the zone. INDEX is the number's place, of those that\nzone rules look at.\n\n    /BlueValues [-10.5 0] def\n    1: font BlueValues 0 Z14 zone number is not whole\n       -10.5 is not whole\n\nMended:\n\n    /BlueValues [-11 0] def\n\nHow much it matters: 4 of 1,906 real fonts have 10 such numbers.\n\nCure: round the number away from the zone, here `-11`, so that it still holds the same edges.",
};

fn z14() -> &'static Page {
    &Z14
}

static Z15: Page = Page {
    code: "Z15",
    anchor: "z15-stem-snaps-equal",
    title: "stem snaps equal",
    text: "Level *should* (Type 1 Format, chapter 5): a place of the list is wasted, and a search in it may go wrong.\n\nThe widths have to rise from number to number. Z10 is about those that fall; this is about one that is there twice. A\nrasteriser that looks for the nearest width takes one of them. Only the first 12 are compared. Here the number at place 1 is that at place 0.\n\n    /StemSnapV [20 20 30] def\n    1: font StemSnapV 1 Z15 stem snaps equal\n       20 comes twice\n\nMended:\n\n    /StemSnapV [20 30] def\n\nCure: leave one of the two out.",
};

fn z15() -> &'static Page {
    &Z15
}

static Z16: Page = Page {
    code: "Z16",
    anchor: "z16-no-stem-snap-beside-a-standard-width",
    title: "no stem snap beside a standard width",
    text: "Level *tidy* (our own rule): an empty list has no effect.\n\nStemSnapH and StemSnapV have the standard width and other frequent ones. An empty list says that there is none, though StdHW or StdVW names one. A\nrasteriser goes by the standard width alone.\n\n    /StdVW [20] def\n    /StemSnapV [] def\n    1: font StemSnapV 0 Z16 no stem snap beside a standard width\n       the standard width is 20; [20] would do\n\nMended:\n\n    /StemSnapV [20] def\n\nHow much it matters: 107 of 1,906 real fonts have 111 such lists. 103 of these fonts are slanted, and it is their StemSnapV.\n\nCure: leave the list out, or write the standard width into it, here `[20]`.",
};

fn z16() -> &'static Page {
    &Z16
}

static Z17: Page = Page {
    code: "Z17",
    anchor: "z17-bluescale-out-of-range",
    title: "BlueScale out of range",
    text: "Level *should* (our own rule): overshoots are suppressed at all sizes, or at none.\n\nBlueScale says, in pixels a unit, up to which size overshoots are suppressed. At 0.5 that is a size of 500 pixels for an em of 1,000 units, where\nevery overshoot is seen. At 0 or less nothing is suppressed at any size. Z07 compares it with the font's zones.\n\n    /BlueScale 0.6 def\n    1: font BlueScale 0 Z17 BlueScale out of range\n       BlueScale is 0.6; more than 0 and at most 0.5 is needed\n\nMended:\n\n    /BlueScale 0.039625 def\n\nCure: leave the entry out, which means 0.039625; or write the value for your size.",
};

fn z17() -> &'static Page {
    &Z17
}

static Z18: Page = Page {
    code: "Z18",
    anchor: "z18-blueshift-out-of-range",
    title: "BlueShift out of range",
    text: "Level *should* (Type 1 Format, chapter 5): small overshoots are drawn at sizes where they shouldn't be, or the reverse.\n\nBlueShift says how many units an overshoot needs to be drawn at small sizes too. It is a whole number, and not negative. A rasteriser that reads\nanother one may take any value for it.\n\n    /BlueShift -1 def\n    1: font BlueShift 0 Z18 BlueShift out of range\n       BlueShift is -1; a whole number from 0 on is needed\n\nMended:\n\n    /BlueShift 7 def\n\nCure: leave the entry out, which means 7; or write a whole number. `7.0` is whole here.",
};

fn z18() -> &'static Page {
    &Z18
}

static Z19: Page = Page {
    code: "Z19",
    anchor: "z19-bluefuzz-out-of-range",
    title: "BlueFuzz out of range",
    text: "Level *should* (Type 1 Format, chapter 5): edges outside a zone are set on its line, or edges inside it aren't.\n\nBlueFuzz widens each zone by so many units below and above. So many as 11 reach into strokes nearby, and a negative number makes zones narrower.\nt1check takes whole numbers from 0 to 10. Z05 and Z06 go by the number as it is, also where\nthis rule is broken.\n\n    /BlueFuzz 11 def\n    1: font BlueFuzz 0 Z19 BlueFuzz out of range\n       BlueFuzz is 11; a whole number from 0 to 10 is needed\n\nMended:\n\n    /BlueFuzz 0 def\n\nCure: `/BlueFuzz 0 def`, with zones that hold their edges; or leave the entry out, which means 1.",
};

fn z19() -> &'static Page {
    &Z19
}

static H05: Page = Page {
    code: "H05",
    anchor: "h05-stem-below-half-a-unit",
    title: "stem below half a unit",
    text: "Level *should* (our own rule): the hint has no effect, or makes a line of no stroke.\n\nNo stroke is so thin. Mostly the width is a quotient whose divisor is wrong, or one that was meant for the position. A rasteriser rounds it to 0, or\ndraws a stroke of one pixel. A width of exactly 0 is H03. Here the width is a third of a unit.\n\n    A: 0 500 hsbw 0 1 3 div hstem endchar\n    1: glyph A - 8 H05 stem below half a unit\n       the stem from 0 to 0.3333282470703125 is 0.3333282470703125 wide\n\nMended:\n\n    A: 0 500 hsbw 0 20 hstem endchar\n\nCure: write the stroke's width, or leave the stem out.\n\nTo find the step: `t1disasm FONT TEXT`, of Debian's t1utils, writes dictionaries and charstrings as text, and\n`t1asm --pfb TEXT FONT` makes the font of it; where lenIV is -1 it leaves charstrings raw. Glyph A is below `/A {`, the Subr of PATH `5>6` below\n`dup 6 {`. `t1check --trace A FONT` numbers what is executed, Subrs too, as STEP does.",
};

fn h05() -> &'static Page {
    &H05
}

static H06: Page = Page {
    code: "H06",
    anchor: "h06-stem-beside-stem3",
    title: "stem beside stem3",
    text: "Level *must* (Type 1 Format, chapter 6): interpreters keep one kind of stems or the other.\n\nA glyph that has hstem3 must not have hstem, and one that has vstem3 must not have vstem, not even in another hint set. A rasteriser may even\nout the three strokes for the whole glyph and drop the other stem, or drop the three. A glyph has at most one such line for each direction: at the\nfirst command of that kind which comes later. Here hstem comes first.\n\n    A: 0 500 hsbw 0 20 hstem 100 20 150 20 200 20 hstem3 endchar\n    1: glyph A - 13 H06 stem beside stem3\n       100 to 120 beside 0 to 20, set at step 6\n\nMended:\n\n    A: 0 500 hsbw 0 20 hstem 100 20 hstem 150 20 hstem 200 20 hstem endchar\n\nHow much it matters: 61 of 1,906 real fonts have such glyphs, with 153 lines in all.\n\nCure: write three stems, each by a command of its own, in place of the hstem3; or leave the other stem out.\n\nTo find the step: `t1disasm FONT TEXT`, of Debian's t1utils, writes dictionaries and charstrings as text, and\n`t1asm --pfb TEXT FONT` makes the font of it; where lenIV is -1 it leaves charstrings raw. Glyph A is below `/A {`, the Subr of PATH `5>6` below\n`dup 6 {`. `t1check --trace A FONT` numbers what is executed, Subrs too, as STEP does.",
};

fn h06() -> &'static Page {
    &H06
}

static H07: Page = Page {
    code: "H07",
    anchor: "h07-another-stem3",
    title: "another stem3",
    text: "Level *must* (Type 1 Format, chapter 6): interpreters even out the strokes by one of the two commands.\n\nWhere a glyph has several hint sets, each that has hstem3 (vstem3) has to have the same three stems. A rasteriser may take the first for the whole\nglyph, or the last. The command is compared with the one before it in the glyph, by the lower and upper edge of each stem, in their order. So `0 20 …`\nand `20 -20 …` are the same. Here the second stem is moved by 10.\n\n    Subr 5: return\n    A: 0 500 hsbw 0 20 50 20 100 20 hstem3 5 1 3 callothersubr pop callsubr 0 20 60 20 120 20 hstem3 endchar\n    1: glyph A - 24 H07 another stem3\n       60 to 80 in place of 50 to 70, set at step 10\n\nMended:\n\n    A: 0 500 hsbw 0 20 50 20 100 20 hstem3 5 1 3 callothersubr pop callsubr 0 20 50 20 100 20 hstem3 endchar\n\nCure: write the same three stems in each hint set; or use hstem (vstem) throughout.\n\nTo find the step: `t1disasm FONT TEXT`, of Debian's t1utils, writes dictionaries and charstrings as text, and\n`t1asm --pfb TEXT FONT` makes the font of it; where lenIV is -1 it leaves charstrings raw. Glyph A is below `/A {`, the Subr of PATH `5>6` below\n`dup 6 {`. `t1check --trace A FONT` numbers what is executed, Subrs too, as STEP does.",
};

fn h07() -> &'static Page {
    &H07
}

static O05: Page = Page {
    code: "O05",
    anchor: "o05-counter-control-not-at-the-start",
    title: "counter control not at the start",
    text: "Level *must* (Technical Note 5015): interpreters ignore the counter control, or refuse the glyph.\n\nA rasteriser decides how it evens out a glyph before it reads stems and paths. So counter control comes right after hsbw or sbw, or after more of\ncounter control. What comes later, or before the width, has no effect, or stops an interpreter. Here a move comes first.\n\n    A: 0 500 hsbw 0 hmoveto 5 1 13 callothersubr endchar\n    1: glyph A - 9 O05 counter control not at the start\n       step 5 comes before it\n\nMended:\n\n    A: 0 500 hsbw 5 1 13 callothersubr 0 hmoveto endchar\n\nCure: move the calls right after hsbw or sbw.\n\nTo find the step: `t1disasm FONT TEXT`, of Debian's t1utils, writes dictionaries and charstrings as text, and\n`t1asm --pfb TEXT FONT` makes the font of it; where lenIV is -1 it leaves charstrings raw. Glyph A is below `/A {`, the Subr of PATH `5>6` below\n`dup 6 {`. `t1check --trace A FONT` numbers what is executed, Subrs too, as STEP does.",
};

fn o05() -> &'static Page {
    &O05
}

static O06: Page = Page {
    code: "O06",
    anchor: "o06-counter-control-again",
    title: "counter control again",
    text: "Level *must* (Technical Note 5015): interpreters take the first numbers or the last.\n\nOtherSubr 13 ends the counter control of a glyph, and a glyph has one. What a rasteriser does with more of it is open. Each further call has this\nline.\n\n    A: 0 500 hsbw 5 1 13 callothersubr 5 1 13 callothersubr endchar\n    1: glyph A - 11 O06 counter control again\n       step 7 ended counter control\n\nMended:\n\n    A: 0 500 hsbw 5 1 12 callothersubr 5 1 13 callothersubr endchar\n\nCure: write OtherSubr 12 for each part but the last; or leave the second one out.\n\nTo find the step: `t1disasm FONT TEXT`, of Debian's t1utils, writes dictionaries and charstrings as text, and\n`t1asm --pfb TEXT FONT` makes the font of it; where lenIV is -1 it leaves charstrings raw. Glyph A is below `/A {`, the Subr of PATH `5>6` below\n`dup 6 {`. `t1check --trace A FONT` numbers what is executed, Subrs too, as STEP does.",
};

fn o06() -> &'static Page {
    &O06
}

static O07: Page = Page {
    code: "O07",
    anchor: "o07-counter-control-leaves-numbers",
    title: "counter control leaves numbers",
    text: "Level *must* (Technical Note 5015): a number is left over, which a later command takes.\n\nThe count has to be that of all numbers on the stack. A rasteriser takes so many from the top, and the others stay below for the next command. Here\nthere are two numbers, and the count is 1.\n\n    A: 0 500 hsbw 7 5 1 13 callothersubr endchar\n    1: glyph A - 8 O07 counter control leaves numbers\n       the count is 1, 2 are there\n    2: glyph A - 9 C05 too many arguments\n       endchar takes no numbers, 1 is on the stack\n\nMended:\n\n    A: 0 500 hsbw 7 5 2 13 callothersubr endchar\n\nCure: write the count of all numbers, here 2; or leave out the number that is too many.\n\nTo find the step: `t1disasm FONT TEXT`, of Debian's t1utils, writes dictionaries and charstrings as text, and\n`t1asm --pfb TEXT FONT` makes the font of it; where lenIV is -1 it leaves charstrings raw. Glyph A is below `/A {`, the Subr of PATH `5>6` below\n`dup 6 {`. `t1check --trace A FONT` numbers what is executed, Subrs too, as STEP does.",
};

fn o07() -> &'static Page {
    &O07
}

static O08: Page = Page {
    code: "O08",
    anchor: "o08-counter-control-has-no-end",
    title: "counter control has no end",
    text: "Level *must* (Technical Note 5015): interpreters ignore the counter control, or take what follows for a part of it.\n\nAfter OtherSubr 12 more numbers come, up to a call of OtherSubr 13. A rasteriser that waits for that doesn't know what it has. The line is at the\ncommand, or the other OtherSubr, that comes in its place.\n\n    A: 0 500 hsbw 5 1 12 callothersubr endchar\n    1: glyph A - 8 O08 counter control has no end\n       OtherSubr 12 at step 7, not ended by a 13\n\nMended:\n\n    A: 0 500 hsbw 5 1 13 callothersubr endchar\n\nCure: write 13 for 12 in the last call.\n\nTo find the step: `t1disasm FONT TEXT`, of Debian's t1utils, writes dictionaries and charstrings as text, and\n`t1asm --pfb TEXT FONT` makes the font of it; where lenIV is -1 it leaves charstrings raw. Glyph A is below `/A {`, the Subr of PATH `5>6` below\n`dup 6 {`. `t1check --trace A FONT` numbers what is executed, Subrs too, as STEP does.",
};

fn o08() -> &'static Page {
    &O08
}

static W03: Page = Page {
    code: "W03",
    anchor: "w03-othersubr-before-hsbw-or-sbw",
    title: "OtherSubr before hsbw or sbw",
    text: "Level *must* (Type 1 Format, chapter 6): interpreters refuse the glyph, or lose what the call was to do.\n\nhsbw or sbw comes first in a glyph. An OtherSubr before it, as a hint replacement or a flex, speaks of a glyph that has no point yet: a rasteriser\nstops with an error, or forgets the call at hsbw. Numbers, div and calls of Subrs may come before. A call with a bad count (O02) has this line too; a\ncounter control has O05.\n\n    Subr 5: return\n    A: 5 1 3 callothersubr pop callsubr 0 500 hsbw endchar\n    1: glyph A - 4 W03 OtherSubr before hsbw or sbw\n       no hsbw or sbw so far\n\nMended:\n\n    A: 0 500 hsbw 5 1 3 callothersubr pop callsubr endchar\n\nCure: move the call after hsbw or sbw.\n\nTo find the step: `t1disasm FONT TEXT`, of Debian's t1utils, writes dictionaries and charstrings as text, and\n`t1asm --pfb TEXT FONT` makes the font of it; where lenIV is -1 it leaves charstrings raw. Glyph A is below `/A {`, the Subr of PATH `5>6` below\n`dup 6 {`. `t1check --trace A FONT` numbers what is executed, Subrs too, as STEP does.",
};

fn w03() -> &'static Page {
    &W03
}

static F22: Page = Page {
    code: "F22",
    anchor: "f22-byte-above-126-in-the-clear-text",
    title: "byte above 126 in the clear text",
    text: "Level *should*: some programs refuse or change the file.\n\nCure: write the letter without its accent, and `(c)` for the copyright sign.\n\nHere a comment has the byte of `é` in Latin 1.\n\n    % Ren\\351\n    1: font file 0 F22 byte above 126 in the clear text\n       byte 233 in line 2\n\nMended:\n\n    % Rene\n\nThe clear text is a program of printable ASCII, blanks and line ends. A byte of 127 or more is mostly an accented letter in a notice or a comment.\nWhat copies the font as text may change it, and the file's lengths with it. The rule looks at each byte up to the end of the word `eexec`, also in\ncomments and strings.\n\nHow much it matters: 18 of 2,084 real fonts have it.\n\nSource: Type 1 Format, chapter 2.",
};

fn f22() -> &'static Page {
    &F22
}

static F23: Page = Page {
    code: "F23",
    anchor: "f23-key-given-twice",
    title: "key given twice",
    text: "Level *should*: some interpreters take the first value, others the last.\n\nCure: leave all entries out but the one that you mean.\n\nHere interpreters differ about FontBBox.\n\n    /FontBBox {0 0 0} def\n    /FontBBox {0 0 1000 1000} def\n    1: font FontBBox 0 F23 key given twice\n       the last one is taken; it is a list of 4 numbers\n\nMended:\n\n    /FontBBox {0 0 1000 1000} def\n\nAn entry is given twice where its name comes with a value a second time, in the dictionary that it belongs to. t1check takes the last value. The\nentries whose values are read count, and the Encoding. UniqueID counts in each dictionary alone.\n\nHow much it matters: 12 of 2,084 real fonts have it. Ten give LanguageGroup two or three times, two a UniqueID in Private.\n\nSource: our own rule.",
};

fn f23() -> &'static Page {
    &F23
}

static F24: Page = Page {
    code: "F24",
    anchor: "f24-charstring-word-not-defined",
    title: "charstring word not defined",
    text: "Level *must*: an interpreter refuses the font at its first charstring.\n\nCure: define the word in Private, before the Subrs, as the mended example does.\n\nHere `pop` is missing.\n\n    /RD {string currentfile exch readstring} executeonly def\n    1: font file 0 F24 charstring word not defined\n       RD before the charstring of /.notdef\n\nMended:\n\n    /RD {string currentfile exch readstring pop} executeonly def\n\nThe word after a charstring's length, RD or `-|`, reads the charstring's bytes. A font defines it itself. The nearest definition before the charstring\ncounts. Its procedure is `string currentfile exch readstring pop`; with other words it leaves something else on the stack, or reads other bytes. The\nprocedure that ends an entry, ND or `|-`, isn't looked at.\n\nHow much it matters: none of 1,019 real fonts has it.\n\nSource: Type 1 Format, chapter 2.",
};

fn f24() -> &'static Page {
    &F24
}

static F25: Page = Page {
    code: "F25",
    anchor: "f25-brace-or-bracket-without-a-partner",
    title: "brace or bracket without a partner",
    text: "Level *must*: an interpreter stops there, or reads the rest of the text as something else.\n\nCure: take the sign out, or write its partner.\n\nHere the text is `20}dict begin`, and no brace is open.\n\n    20}dict begin\n    1: font file 0 F25 brace or bracket without a partner\n       } in the clear text\n\nMended:\n\n    20 dict begin\n\nOutside of procedures and arrays a word `}`, `]`, `)` or `>` closes nothing. Within them brackets pair as a stack does: `{ [ }` and `[ } ]` don't. Up\nto 32 may be open.\n\nHow much it matters: none of 1,019 real fonts has it.\n\nSource: our own rule.",
};

fn f25() -> &'static Page {
    &F25
}

static F26: Page = Page {
    code: "F26",
    anchor: "f26-unknown-word",
    title: "unknown word",
    text: "Level *must*: an interpreter refuses the font with the error `undefined`.\n\nCure: mend the word. A word of your own needs its definition before it.\n\nHere an `R` is in the place of the slash.\n\n    Rversion (1.0) readonly def\n    1: font file 0 F26 unknown word\n       Rversion in the clear text\n\nMended:\n\n    /version (1.0) readonly def\n\nA word is executed. It has to be one of these:\n\n- a number, also one with an exponent or a radix, as `1e-3` and `8#177`;\n- a name that the font has written before it;\n- one of PostScript's own words. Known are those that fonts use: `array begin bind closefile copy currentdict currentfile def definefont dict dup`\n  `eexec end exch executeonly false findfont FontDirectory for get getinterval if ifelse index known length mark maxlength noaccess pop put`\n  `putinterval readonly readstring StandardEncoding string systemdict true userdict << >>`.\n\nThe words `}`, `]`, `)` and `>` are F25's.\n\nHow much it matters: no word of 2,084 real fonts is reported.\n\nSource: our own rule.",
};

fn f26() -> &'static Page {
    &F26
}

static F27: Page = Page {
    code: "F27",
    anchor: "f27-fontmatrix-cant-be-inverted",
    title: "FontMatrix can't be inverted",
    text: "Level *must*: an interpreter stops with the error `undefinedresult`, or draws nothing.\n\nCure: write `/FontMatrix [0.001 0 0 0.001 0 0] def`, or your font's own six numbers.\n\nHere the number 0.001 is at the third place, not the fourth.\n\n    /FontMatrix [0.001 0 0.001 0 0 0] def\n    1: font FontMatrix 0 F27 FontMatrix can't be inverted\n       the determinant 0.001 times 0 less 0 times 0.001 is 0\n\nMended:\n\n    /FontMatrix [0.001 0 0 0.001 0 0] def\n\nA rasteriser also needs the way back from the page to the units of the glyph. The rule compares two products of the six numbers: the first by the\nfourth, and the second by the third. Where they are equal there is no way back, since all points come to lie on one line.\n\nHow much it matters: none of 1,019 real fonts has it.\n\nSource: Type 1 Format, chapter 2.",
};

fn f27() -> &'static Page {
    &F27
}

static F28: Page = Page {
    code: "F28",
    anchor: "f28-no-private-dictionary",
    title: "no Private dictionary",
    text: "Level *must*: an interpreter has no dictionary for the entries of the private text, and refuses the font.\n\nCure: begin the private text with `dup /Private 16 dict dup begin`.\n\nHere a letter is missing.\n\n    dup /Privat 16 dict dup begin\n    1: font file 0 F28 no Private dictionary\n       there is no /Private before the Subrs and CharStrings\n\nMended:\n\n    dup /Private 16 dict dup begin\n\nThe rule looks for `/Private`, a whole number of 1 or more, `dict`, `dup` and `begin`, one right after the other. They have to come before the Subrs and the\nCharStrings.\n\nHow much it matters: none of 1,019 real fonts has it.\n\nSource: Type 1 Format, chapter 2.",
};

fn f28() -> &'static Page {
    &F28
}

static F29: Page = Page {
    code: "F29",
    anchor: "f29-unusual-first-line",
    title: "unusual first line",
    text: "Level *must*: FreeType doesn't open the file.\n\nCure: begin the file with `%!PS-AdobeFont-1.0: `, the FontName and the version.\n\nHere the `A` is an `8`.\n\n    %!PS-8dobeFont-1.0: T\n    1: font file 0 F29 unusual first line\n       the file begins with %!PS-8dobeFont-1.0\\x3A T\n\nMended:\n\n    %!PS-AdobeFont-1.0: T\n\nPrograms know a Type 1 font by its first bytes, `%!PS-AdobeFont` or `%!FontType`. A PFB file has them after the header of its first segment.\n\nHow much it matters: none of 1,019 real fonts has it.\n\nSource: Type 1 Format, chapter 2.",
};

fn f29() -> &'static Page {
    &F29
}

static P04: Page = Page {
    code: "P04",
    anchor: "p04-point-outside-fontbbox",
    title: "point outside FontBBox",
    text: "Level *should*: a rasteriser may cut the glyph off there.\n\nCure: write a FontBBox that encloses all glyphs; or mend the point, if a digit or a sign of it is wrong.\n\nHere the box ends at x 1000, and the first line of the glyph at 1001.\n\n    A: 0 500 hsbw 950 100 rmoveto 51 hlineto 100 vlineto -51 hlineto closepath endchar\n    1: glyph A - 8 P04 point outside FontBBox\n       x 1001 is right of FontBBox, which ends at 1000\n\nMended:\n\n    /FontBBox {0 0 1001 1000} def\n\nFontBBox is the box that encloses all glyphs, and a rasteriser may reserve room by it. The rule looks at the points where lines and curves end. A point\na unit or more outside the box breaks it, and one less than a unit outside doesn't. Moves and control points don't count. A glyph is reported\nonce, at its first such point.\n\nNothing is compared where FontBBox isn't four numbers (F16), has its corners exchanged\n(F17), or is `{0 0 0 0}`.\n\nHow much it matters: 168 of 1,019 real fonts have it, at 14,267 glyphs. 72 of the fonts are for Vietnamese, with accents above the box. 21 are for\nArabic, with 2,048 units to the em and a FontBBox in thousandths of it. In 28 fonts it is one glyph.\n\nSource: Type 1 Format, chapter 2.\n\nTo find the step: `t1disasm FONT TEXT`, of Debian's t1utils, writes dictionaries and charstrings as text, and\n`t1asm --pfb TEXT FONT` makes the font of it; where lenIV is -1 it leaves charstrings raw. Glyph A is below `/A {`, the Subr of PATH `5>6` below\n`dup 6 {`. `t1check --trace A FONT` numbers what is executed, Subrs too, as STEP does.",
};

fn p04() -> &'static Page {
    &P04
}

static P05: Page = Page {
    code: "P05",
    anchor: "p05-outline-runs-clockwise",
    title: "outline runs clockwise",
    text: "Level *should*: what goes by the direction of paths, as making strokes bolder, does the opposite.\n\nCure: write the points of each path in the opposite order. Font editors do so, as FontForge by *Element > Correct Direction*.\n\nHere a square goes up first.\n\n    A: 0 500 hsbw 100 100 rmoveto 100 vlineto 100 hlineto -100 vlineto closepath endchar\n    1: glyph A - 14 P05 outline runs clockwise\n       the area is -10000; 1 of 1 subpath is clockwise, from step 6\n\nThe reason has the sum of the areas, how many subpaths run clockwise, and the step that begins the first of these.\n\nMended:\n\n    A: 0 500 hsbw 100 100 rmoveto 100 hlineto 100 vlineto -100 hlineto closepath endchar\n\nIn a Type 1 font outer contours run anticlockwise, and inner ones, as that of `o`, clockwise: black is to the left. Mostly such an outline was taken\nfrom a TrueType font, where it is the other way round.\n\nThe rule asks for the whole glyph. The area of a subpath is above 0 if it runs anticlockwise, and below 0 if it runs clockwise. The rule is broken if\nthe sum of all is below 0. So one wrong contour among right ones may be missed.\n\n- A curve counts by its own area, not by that of its chord.\n- An open subpath counts as closed by a straight line.\n- A glyph with a coordinate past 32000 or -32000 isn't judged. Control points and moves count there too.\n\nHow much it matters: 67 of 1,019 real fonts have it, at 7,027 glyphs. 6,942 of these are in 21 fonts for Arabic, in which nearly all glyphs run\nclockwise. In 32 fonts it is one glyph.\n\nSource: Type 1 Format, chapter 3.\n\nTo find the step: `t1disasm FONT TEXT`, of Debian's t1utils, writes dictionaries and charstrings as text, and\n`t1asm --pfb TEXT FONT` makes the font of it; where lenIV is -1 it leaves charstrings raw. Glyph A is below `/A {`, the Subr of PATH `5>6` below\n`dup 6 {`. `t1check --trace A FONT` numbers what is executed, Subrs too, as STEP does.",
};

fn p05() -> &'static Page {
    &P05
}

static P06: Page = Page {
    code: "P06",
    anchor: "p06-segment-of-no-length",
    title: "segment of no length",
    text: "Level *tidy*: nothing is drawn by it.\n\nCure: remove the line or the curve.\n\nHere the first line leads nowhere.\n\n    A: 0 500 hsbw 100 100 rmoveto 0 hlineto 100 hlineto 100 vlineto closepath endchar\n    1: glyph A - 8 P06 segment of no length\n       all its points are 100 100\n\nMended:\n\n    A: 0 500 hsbw 100 100 rmoveto 100 hlineto 100 vlineto closepath endchar\n\nAll points of a line or a curve are one point, the one where it begins too. Mostly two points became one by rounding. A curve that comes back to where\nit began, by other points, has a length. The line that closepath draws isn't judged.\n\nHow much it matters: 44 of 1,019 real fonts have it, at 281 places.\n\nSource: Type 1 Format, chapter 3.\n\nTo find the step: `t1disasm FONT TEXT`, of Debian's t1utils, writes dictionaries and charstrings as text, and\n`t1asm --pfb TEXT FONT` makes the font of it; where lenIV is -1 it leaves charstrings raw. Glyph A is below `/A {`, the Subr of PATH `5>6` below\n`dup 6 {`. `t1check --trace A FONT` numbers what is executed, Subrs too, as STEP does.",
};

fn p06() -> &'static Page {
    &P06
}

static P07: Page = Page {
    code: "P07",
    anchor: "p07-line-turns-back",
    title: "line turns back",
    text: "Level *tidy*: the path has a spike without width.\n\nCure: make one line of both. Where the spike is meant as a stroke, give it a width.\n\nHere the second line leads back by 50.\n\n    A: 0 500 hsbw 100 100 rmoveto 100 hlineto -50 hlineto 100 vlineto closepath endchar\n    1: glyph A - 10 P07 line turns back\n       from 200 100 to 150 100, back over the line from 100 100\n\nMended:\n\n    A: 0 500 hsbw 100 100 rmoveto 50 hlineto 100 vlineto closepath endchar\n\nTwo lines, one right after the other, are on one straight line, and the second leads back. Both have a length. A move, a curve or closepath between two\nlines parts them. A stem, a hint replacement, setcurrentpoint or a flex that draws nothing doesn't. The line that closepath draws isn't judged.\n\nHow much it matters: 33 of 1,019 real fonts have it, at 116 places.\n\nSource: Type 1 Format, chapter 3.\n\nTo find the step: `t1disasm FONT TEXT`, of Debian's t1utils, writes dictionaries and charstrings as text, and\n`t1asm --pfb TEXT FONT` makes the font of it; where lenIV is -1 it leaves charstrings raw. Glyph A is below `/A {`, the Subr of PATH `5>6` below\n`dup 6 {`. `t1check --trace A FONT` numbers what is executed, Subrs too, as STEP does.",
};

fn p07() -> &'static Page {
    &P07
}

static P08: Page = Page {
    code: "P08",
    anchor: "p08-line-goes-straight-on",
    title: "line goes straight on",
    text: "Level *tidy*: nothing different is drawn, by more points.\n\nCure: make one line of both.\n\nHere two lines of 50 lead to the right.\n\n    A: 0 500 hsbw 100 100 rmoveto 50 hlineto 50 hlineto 100 vlineto -100 hlineto closepath endchar\n    1: glyph A - 10 P08 line goes straight on\n       from 150 100 to 200 100, straight on from the line from 100 100\n\nMended:\n\n    A: 0 500 hsbw 100 100 rmoveto 100 hlineto 100 vlineto -100 hlineto closepath endchar\n\nTwo lines, one right after the other, are on one straight line, and the second leads on. Which lines are compared is as with\nP07. The direction has to be exactly the same: lines that bend by rounding aren't reported.\n\nHow much it matters: 455 of 1,019 real fonts have it, at 32,775 places.\n\nSource: Type 1 Format, chapter 3.\n\nTo find the step: `t1disasm FONT TEXT`, of Debian's t1utils, writes dictionaries and charstrings as text, and\n`t1asm --pfb TEXT FONT` makes the font of it; where lenIV is -1 it leaves charstrings raw. Glyph A is below `/A {`, the Subr of PATH `5>6` below\n`dup 6 {`. `t1check --trace A FONT` numbers what is executed, Subrs too, as STEP does.",
};

fn p08() -> &'static Page {
    &P08
}

static P09: Page = Page {
    code: "P09",
    anchor: "p09-flat-curve",
    title: "flat curve",
    text: "Level *tidy*: a straight line is drawn, by more work.\n\nCure: write a line in place of the curve.\n\nHere all four points of the curve have the y 100.\n\n    A: 0 500 hsbw 100 100 rmoveto 10 0 20 0 30 0 rrcurveto 100 vlineto closepath endchar\n    1: glyph A - 13 P09 flat curve\n       from 100 100 to 160 100, all on one straight line\n\nMended:\n\n    A: 0 500 hsbw 100 100 rmoveto 60 hlineto 100 vlineto closepath endchar\n\nBoth control points are exactly on the straight line through the curve's ends. The ends are two points; where they are one,\nP06 or P10 may be broken. A flex is judged as well.\n\nHow much it matters: 472 of 1,019 real fonts have it, at 20,175 places.\n\nSource: Type 1 Format, chapter 3.\n\nTo find the step: `t1disasm FONT TEXT`, of Debian's t1utils, writes dictionaries and charstrings as text, and\n`t1asm --pfb TEXT FONT` makes the font of it; where lenIV is -1 it leaves charstrings raw. Glyph A is below `/A {`, the Subr of PATH `5>6` below\n`dup 6 {`. `t1check --trace A FONT` numbers what is executed, Subrs too, as STEP does.",
};

fn p09() -> &'static Page {
    &P09
}

static P10: Page = Page {
    code: "P10",
    anchor: "p10-no-point-at-an-extreme",
    title: "no point at an extreme",
    text: "Level *tidy*: a hint finds no point there, so it may not hold the curve.\n\nCure: make two curves of it, with a point at the extreme. Font editors do so, as FontForge by *Element > Add Extrema*.\n\nHere the curve begins and ends at y 100, and its middle is at 175.\n\n    A: 0 500 hsbw 100 100 rmoveto 100 hlineto 0 100 -100 0 0 -100 rrcurveto closepath endchar\n    1: glyph A - 15 P10 no point at an extreme\n       y is 156.25 at 1/4 of the curve, its ends are at 100 and 100\n\nMended:\n\n    A: 0 500 hsbw 100 100 rmoveto 100 hlineto 50 -25 25 -25 vhcurveto -25 -25 -25 -50 hvcurveto closepath endchar\n\nAn extreme is where a curve is highest, lowest, or outermost to the left or right. A point belongs there, where one curve ends and the next begins.\n\nThe rule asks the curve itself at three places: 1/4, 1/2 and 3/4 of its parameter. It is broken if the curve is there three units or more above both of\nits ends, or below both. To the right and to the left it is the same. So the rule has no false alarm: what it reports does go beyond its ends. A control\npoint beyond them is no fault. An extreme between the three places may be missed.\n\nHow much it matters: 472 of 1,019 real fonts have it, at 83,141 places, 5,328 of these in one font. No rule of edition 4 is broken more often.\n\nSource: Type 1 Format, chapter 3.\n\nTo find the step: `t1disasm FONT TEXT`, of Debian's t1utils, writes dictionaries and charstrings as text, and\n`t1asm --pfb TEXT FONT` makes the font of it; where lenIV is -1 it leaves charstrings raw. Glyph A is below `/A {`, the Subr of PATH `5>6` below\n`dup 6 {`. `t1check --trace A FONT` numbers what is executed, Subrs too, as STEP does.",
};

fn p10() -> &'static Page {
    &P10
}

static P11: Page = Page {
    code: "P11",
    anchor: "p11-move-right-behind-a-move",
    title: "move right behind a move",
    text: "Level *tidy*: nothing is drawn from where the first move leads.\n\nCure: make one move of both, which leads as far as both did; or write the lines that are missing between them.\n\nHere two moves lead to the square.\n\n    A: 0 500 hsbw 10 hmoveto 90 100 rmoveto 100 hlineto 100 vlineto -100 hlineto closepath endchar\n    1: glyph A - 8 P11 move right behind a move\n       moved at step 5 too, and nothing is drawn since\n\nMended:\n\n    A: 0 500 hsbw 100 100 rmoveto 100 hlineto 100 vlineto -100 hlineto closepath endchar\n\nBetween the two moves there is no line, no curve, no end of a flex and no closepath. A stem or a call of a Subr between them changes nothing. Moves\ninside a flex don't count. Of three moves the second and the third are reported.\n\nHow much it matters: 52 of 1,019 real fonts have it, at 5,124 places. All are of one family, for Czech and Slovak, whose accents are Subrs that begin\nand end with a move of their own.\n\nSource: our own rule.\n\nTo find the step: `t1disasm FONT TEXT`, of Debian's t1utils, writes dictionaries and charstrings as text, and\n`t1asm --pfb TEXT FONT` makes the font of it; where lenIV is -1 it leaves charstrings raw. Glyph A is below `/A {`, the Subr of PATH `5>6` below\n`dup 6 {`. `t1check --trace A FONT` numbers what is executed, Subrs too, as STEP does.",
};

fn p11() -> &'static Page {
    &P11
}

static H08: Page = Page {
    code: "H08",
    anchor: "h08-stem-that-nothing-touches",
    title: "stem that nothing touches",
    text: "Level *should*: the hint has no effect, or moves a stroke that it wasn't made for.\n\nCure: move the stem to its stroke, or remove it. In a composed glyph, add to an accent's stems what was added to its outline. A stem that comes after\nits stroke belongs before it (H01).\n\nHere the stem is from 300 to 320, and the square from 100 to 200.\n\n    A: 0 500 hsbw 300 20 hstem 100 100 rmoveto 100 hlineto 100 vlineto -100 hlineto closepath endchar\n    1: glyph A - 17 H08 stem that nothing touches\n       the stem from 300 to 320 in y, set at step 6; the nearest point is at y 200\n\nThe reason has the stem's edges and the step that sets it first. The nearest point is where a line or a curve after that step begins or ends closest\nto an edge.\n\nMended:\n\n    A: 0 500 hsbw 180 20 hstem 100 100 rmoveto 100 hlineto 100 vlineto -100 hlineto closepath endchar\n\nA stem says where the two edges of a stroke are, but nothing is drawn at either. The main cause is accents whose stems weren't moved with them when\nglyphs were composed.\n\nOne edge that is *touched* is enough, in y for hstem and hstem3, in x for vstem and vstem3. A line or a curve that is drawn after the stem touches an\nedge\n\n- if it begins or ends at most ten units from the edge: a rasteriser moves with the stem what lies a few units off;\n- if it is a curve, and the edge is between its lower end and its lowest point, or between its upper end and its highest point. Control points count\n  here, since the curve may have its extreme there. In x the same is asked of left and right.\n\nMoves don't touch an edge, nor does the line that closepath draws.\n\nThe rule looks at all stems of the glyph:\n\n- A hint replacement takes none of them away.\n- Edges count from the sidebearing that hsbw or sbw has set before the stem.\n- A stem with the same two edges as an earlier one is that stem, at the place where it was set first.\n- Of the stems that are left the first 96 of each direction count.\n- A ghost hint, of width -20 or -21, has two edges as well.\n\nA glyph without lines and curves isn't reported.\n\nHow much it matters: 207 of 1,019 real fonts have it, at 1,784 glyphs. By their names some 85 in 100 of these are accented letters. 1,105 are in\nfonts for Vietnamese.\n\nSource: Type 1 Format, chapter 5.\n\nTo find the step: `t1disasm FONT TEXT`, of Debian's t1utils, writes dictionaries and charstrings as text, and\n`t1asm --pfb TEXT FONT` makes the font of it; where lenIV is -1 it leaves charstrings raw. Glyph A is below `/A {`, the Subr of PATH `5>6` below\n`dup 6 {`. `t1check --trace A FONT` numbers what is executed, Subrs too, as STEP does.",
};

fn h08() -> &'static Page {
    &H08
}

static H09: Page = Page {
    code: "H09",
    anchor: "h09-stems-share-an-edge",
    title: "stems share an edge",
    text: "Level *tidy*: one of the stems is no stroke.\n\nCure: keep the stem that is a stroke, or make one stem of both. If both are needed, replace the hints.\n\nHere both stems have an edge at 150.\n\n    A: 0 500 hsbw 100 50 hstem 150 50 hstem 100 100 rmoveto 100 hlineto 100 vlineto -100 hlineto closepath endchar\n    1: glyph A - 9 H09 stems share an edge\n       150 to 200 and 100 to 150, set at step 6, share an edge\n\nMended:\n\n    A: 0 500 hsbw 100 100 hstem 100 100 rmoveto 100 hlineto 100 vlineto -100 hlineto closepath endchar\n\nBetween two strokes there is white. Where one stem ends at the edge at which another begins, one of them is mostly that white, or one stroke has two\nstems. A stem is compared with the same stems as by H02. Positions count as they are written, without the sidebearing. A stem\nof width 0, -20 or -21 shares no edge.\n\nHow much it matters: 191 of 1,019 real fonts have it, at 1,496 places.\n\nSource: Type 1 Format, chapter 5.\n\nTo find the step: `t1disasm FONT TEXT`, of Debian's t1utils, writes dictionaries and charstrings as text, and\n`t1asm --pfb TEXT FONT` makes the font of it; where lenIV is -1 it leaves charstrings raw. Glyph A is below `/A {`, the Subr of PATH `5>6` below\n`dup 6 {`. `t1check --trace A FONT` numbers what is executed, Subrs too, as STEP does.",
};

fn h09() -> &'static Page {
    &H09
}

static H10: Page = Page {
    code: "H10",
    anchor: "h10-stem-of-negative-width",
    title: "stem of negative width",
    text: "Level *tidy*: interpreters take the same two edges.\n\nCure: write the lower or left edge, and the width without its sign. Where one edge alone is meant, write a ghost hint.\n\nHere the stem is from 100 to 200, written from its upper edge.\n\n    A: 0 500 hsbw 200 -100 hstem 100 100 rmoveto 100 hlineto 100 vlineto -100 hlineto closepath endchar\n    1: glyph A - 6 H10 stem of negative width\n       200 -100 says the same as 100 100\n\nMended:\n\n    A: 0 500 hsbw 100 100 hstem 100 100 rmoveto 100 hlineto 100 vlineto -100 hlineto closepath endchar\n\nA stem begins at its lower or left edge, and its width is above 0. Only -20 and -21 have a meaning of their own, that of a ghost hint. Each other width\nbelow 0 breaks the rule, also -19, -22 and -20.5.\n\nHow much it matters: 169 of 1,019 real fonts have it, at 14,659 places.\n\nSource: Type 1 Format, chapter 6.\n\nTo find the step: `t1disasm FONT TEXT`, of Debian's t1utils, writes dictionaries and charstrings as text, and\n`t1asm --pfb TEXT FONT` makes the font of it; where lenIV is -1 it leaves charstrings raw. Glyph A is below `/A {`, the Subr of PATH `5>6` below\n`dup 6 {`. `t1check --trace A FONT` numbers what is executed, Subrs too, as STEP does.",
};

fn h10() -> &'static Page {
    &H10
}

static E01: Page = Page {
    code: "E01",
    anchor: "e01-not-a-pfa-or-pfb",
    title: "not a PFA or PFB",
    text: "The file begins neither with byte 128 nor with `%!`; an empty file too.\n\nPrinters and installers won't take the file as a Type 1 font either.\n\nExample: a font in another format, as TrueType, OpenType (CFF too), or Type1C, which PDFs have.\n\nCure: convert the font to Type 1, or name the right file. `cfftot1`, of Debian's lcdf-typetools, converts CFF. Recipes\nsay how to check the fonts of a PDF.",
};

fn e01() -> &'static Page {
    &E01
}

static E02: Page = Page {
    code: "E02",
    anchor: "e02-bad-segment-header",
    title: "bad segment header",
    text: "Where a segment should begin there is another byte than 128, or 128 and a type that is none of 1, 2, 3.\n\nThe file is damaged, often by a transfer that changed line ends, or it was cut.\n\nExample: `80 04`; `80 01 00 00 00 00 41`.\n\nCure: take it from its source again, by a binary transfer.",
};

fn e02() -> &'static Page {
    &E02
}

static E03: Page = Page {
    code: "E03",
    anchor: "e03-segment-cut-short",
    title: "segment cut short",
    text: "The file ends after a 128, inside a segment's length, or before the end of its bytes.\n\nMostly the file was cut.\n\nExample: `80 01 05 00 00 00 25 21 0A 0A`.\n\nCure: take it from its source again, by a binary transfer.",
};

fn e03() -> &'static Page {
    &E03
}

static E04: Page = Page {
    code: "E04",
    anchor: "e04-no-eexec",
    title: "no eexec",
    text: "The segments' bytes, joined, don't begin with `%!`; or the clear text ends without the word `eexec`.\n\nThere is no encrypted part, so no Private dictionary and no glyphs; or the first segment isn't the clear text. `eexec` in a comment, a\nstring, a procedure or an array doesn't count, nor as a key's value.\n\nExample: a file that ends before `currentfile eexec`.\n\nCure: take the font from its source again; a Type 3 or bitmap font can't be checked.",
};

fn e04() -> &'static Page {
    &E04
}

static E05: Page = Page {
    code: "E05",
    anchor: "e05-file-too-large",
    title: "file too large",
    text: "The file has more than 16,777,216 bytes.\n\nA Type 1 font of this size doesn't exist in practice.\n\nExample: a disk image, a collection of fonts.\n\nCure: name the right file.",
};

fn e05() -> &'static Page {
    &E05
}

static E06: Page = Page {
    code: "E06",
    anchor: "e06-encrypted-part-too-short",
    title: "encrypted part too short",
    text: "Fewer than four encrypted bytes come after `eexec`.\n\nThe file was cut, or an editor changed the encrypted bytes.\n\nExample: a file that ends after `currentfile eexec`.\n\nCure: take it from its source again.",
};

fn e06() -> &'static Page {
    &E06
}

static E07: Page = Page {
    code: "E07",
    anchor: "e07-unclosed-or-too-deeply-nested-token",
    title: "unclosed or too deeply nested token",
    text: "A string, procedure or array isn't closed, or procedures and arrays are nested more than 32 deep (brackets inside a procedure don't count).\n\nA bracket is missing or one too many; an interpreter reads the rest of the font as part of this token.\n\nExample: `/Weight (Medium` with no `)` to follow; 33 times `[`.\n\nCure: close the token; in a string write a single parenthesis as `\\(` or `\\)`.",
};

fn e07() -> &'static Page {
    &E07
}

static E08: Page = Page {
    code: "E08",
    anchor: "e08-subrs-malformed",
    title: "Subrs malformed",
    text: "After `/Subrs` there is neither an empty array nor a whole number of 0 or more and `array`. Or an entry isn't `dup`, number, length, a word,\nand the bytes. Or the text ends inside.\n\nGlyphs call Subrs for flex and hint replacement. A length that isn't that of the bytes makes all that follows unreadable.\n\nExample: `/Subrs 4 def`; `dup -1 9 RD`.\n\nCure: write the number of Subrs and `array`, and each entry's true length and one blank after `RD`; let an assembler write these.",
};

fn e08() -> &'static Page {
    &E08
}

static E09: Page = Page {
    code: "E09",
    anchor: "e09-charstrings-malformed-or-absent",
    title: "CharStrings malformed or absent",
    text: "After `/CharStrings` there is no whole number of 0 or more with `dict dup begin`. Or an entry isn't a name, length, a word, and the bytes. Or\nthe text ends before the `end` of the glyphs.\n\nNo glyph can be drawn, or not all.\n\nExample: `/CharStrings 4 array`; a file cut between two glyphs.\n\nCure: write the number of glyphs and `dict dup begin`, and each entry's true length and one blank after `RD`; let an assembler write these.\nWhere the file was cut, take it from its source again.",
};

fn e09() -> &'static Page {
    &E09
}

static E10: Page = Page {
    code: "E10",
    anchor: "e10-leniv-out-of-range",
    title: "lenIV out of range",
    text: "A value of `/lenIV` is no whole number from -1 to 64, or the text ends after the key.\n\nlenIV says how many random bytes come before each charstring; if it is wrong, each glyph is noise. 4 is the usual value, -1 says that\ncharstrings aren't encrypted.\n\nExample: `/lenIV 65 def`; `/lenIV [4] def`.\n\nCure: `/lenIV 4 def`, or no such entry, with four such bytes before each charstring.",
};

fn e10() -> &'static Page {
    &E10
}

static E11: Page = Page {
    code: "E11",
    anchor: "e11-count-past-its-limit",
    title: "count past its limit",
    text: "The number after `/Subrs` or `/CharStrings`, a charstring's length, or the number of different glyphs is past 65,535; or a Subr's number is\npast 65,534.\n\nNo real font comes near; mostly a number was damaged.\n\nExample: `/Subrs 65536 array`.\n\nCure: mend the number, or split the font.",
};

fn e11() -> &'static Page {
    &E11
}

static E12: Page = Page {
    code: "E12",
    anchor: "e12-second-subrs",
    title: "second Subrs",
    text: "The name `/Subrs` occurs a second time before the glyphs, other than as a key's value.\n\nA hybrid font has Subrs for low and for high resolution, so each charstring has two meanings.\n\nExample: `/Subrs 6 array … ND` and later `/Subrs 0 array ND`.\n\nCure: check each of both as a font of its own, with one set of Subrs.",
};

fn e12() -> &'static Page {
    &E12
}

static E13: Page = Page {
    code: "E13",
    anchor: "e13-multiple-master-font",
    title: "multiple master font",
    text: "The name `/WeightVector` is in the clear text, outside a custom Encoding and other than as a key's value.\n\nA multiple master font has several designs in one; its charstrings mix their numbers.\n\nExample: `/WeightVector [0.5 0.5] def`.\n\nCure: make a font of one instance, and check that.",
};

fn e13() -> &'static Page {
    &E13
}

static E14: Page = Page {
    code: "E14",
    anchor: "e14-waivers-malformed",
    title: "waivers malformed",
    text: "A line of the file of waivers isn't what a waiver has to be. It has to be a name, one blank (byte 32) and a code, and nothing else. The\nname has the bytes that a name in a font can have: all but zero, tab, line feed, form feed, carriage return, the blank, and `( ) < > [ ] { } / %`.\nThe code is that of a rule from C01 to L01, in capital letters. In edition 3 it may also be one from H05 to W03, and in edition 4 also one from P04 to\nH10. Each of these lines is malformed:\n\n    A                    no code\n    A C05 H02            two codes\n    A  C05               two blanks; so is a blank at the end, or a tab\n    /A C05               a slash\n    A F01                a rule on the font\n    A U01                the rule on waivers\n    A C10                no rule\n    % meant so           a comment\n\nOne such line is enough, since it can't be said what it was to waive.\n\nCure: mend these lines, or remove them.",
};

fn e14() -> &'static Page {
    &E14
}

static E15: Page = Page {
    code: "E15",
    anchor: "e15-waivers-past-their-limit",
    title: "waivers past their limit",
    text: "The file of waivers has more than 1,048,576 bytes, so no line of it is looked at. No font needs so many waivers; mostly another file was\nnamed. Example: a file of 1,048,577 line feeds; with 1,048,576 of them it is read, and waives nothing.\n\nCure: name the right file. `LC_ALL=C sort -u` removes waivers that occur more than once.",
};

fn e15() -> &'static Page {
    &E15
}

/// All pages, in the order of docs/RULES.md. A page is borrowed by a function of its own: of a static array of all the borrow
/// checker's part stops at its limit.
pub fn pages() -> [Page; 127] {
    [
        *f01(),
        *f02(),
        *f03(),
        *f04(),
        *f05(),
        *f06(),
        *f07(),
        *f08(),
        *f09(),
        *f10(),
        *f11(),
        *f12(),
        *f13(),
        *f14(),
        *z01(),
        *z02(),
        *z03(),
        *z04(),
        *z05(),
        *z06(),
        *z07(),
        *z08(),
        *z09(),
        *z10(),
        *z11(),
        *c01(),
        *c02(),
        *c03(),
        *c04(),
        *c05(),
        *c06(),
        *c07(),
        *c08(),
        *c09(),
        *s01(),
        *s02(),
        *s03(),
        *s04(),
        *ge01(),
        *ge02(),
        *w01(),
        *w02(),
        *p01(),
        *p02(),
        *p03(),
        *h01(),
        *h02(),
        *h03(),
        *h04(),
        *r01(),
        *r02(),
        *x01(),
        *x02(),
        *x03(),
        *x04(),
        *x05(),
        *x06(),
        *o01(),
        *o02(),
        *o03(),
        *o04(),
        *k01(),
        *k02(),
        *k03(),
        *k04(),
        *k05(),
        *k06(),
        *k07(),
        *l01(),
        *u01(),
        *f15(),
        *f16(),
        *f17(),
        *f18(),
        *f19(),
        *f20(),
        *f21(),
        *z12(),
        *z13(),
        *z14(),
        *z15(),
        *z16(),
        *z17(),
        *z18(),
        *z19(),
        *h05(),
        *h06(),
        *h07(),
        *o05(),
        *o06(),
        *o07(),
        *o08(),
        *w03(),
        *f22(),
        *f23(),
        *f24(),
        *f25(),
        *f26(),
        *f27(),
        *f28(),
        *f29(),
        *p04(),
        *p05(),
        *p06(),
        *p07(),
        *p08(),
        *p09(),
        *p10(),
        *p11(),
        *h08(),
        *h09(),
        *h10(),
        *e01(),
        *e02(),
        *e03(),
        *e04(),
        *e05(),
        *e06(),
        *e07(),
        *e08(),
        *e09(),
        *e10(),
        *e11(),
        *e12(),
        *e13(),
        *e14(),
        *e15(),
    ]
}
