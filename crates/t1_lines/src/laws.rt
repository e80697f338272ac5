//! Laws above the definitions: each is the contract of a function without a body.

ghost use Rattle.t1_report.specs.Faults.{fault_value};
ghost use Rattle.t1_lines.specs.Laws.{APrintedLineSplitsOnce, ATextIsOneLine, AWrittenLineTellsOneFault, EachCodeIsOfAReason, FaultsAreWrittenAsLines, FontsHaveNames, MemoryAloneRefusesNone, NoCodeIsOfTwo, WaiversHaveNames};
ghost use Rattle.t1_lines.specs.Lines.{IsSmall};

use t1_report::Fault;

/// Each fault's line is written as it is spelled.
pub fn faults_are_written_as_lines()
    ensures { FaultsAreWrittenAsLines }
{}

/// The text of a line tells its fault: its number, its place and its rule. A line that is printed behind a font's name is split in one way where the
/// name has no colon and blank.
pub fn a_line_tells_one_fault()
    ensures line { ATextIsOneLine }
    ensures fault { AWrittenLineTellsOneFault }
    ensures split { APrintedLineSplitsOnce }
{}

/// Each fault's numbers are of 64 and 32 bits, and at most ten Subrs are being executed at it.
pub fn faults_are_small(fault: &Fault)
    ensures { IsSmall (fault_value fault.now) }
{
    // What the fields' types allow is known of a field that is read.
    let _number = fault.number;
    let _step = fault.step;
    let path = fault.path.as_slice();
    for number in path {
        let _number = *number;
    }
}

/// The glyphs of a font that was read have names without blanks and delimiters.
#[tactic(auto, using(crate::proofs::NamesKept::fonts_have_names))]
pub fn fonts_have_names()
    ensures { FontsHaveNames }
{}

/// So have those of waivers that were read.
#[tactic(auto, using(crate::proofs::WaiverNames::waivers_have_names))]
pub fn waivers_have_names()
    ensures { WaiversHaveNames }
{}

/// Each of the fifteen numbers is that of one reason, and every reason but running out of memory has one.
#[tactic(auto, using(crate::proofs::ReasonsOfCodes::each, crate::proofs::ReasonsOfCodes::no_other, crate::proofs::ReasonsOfCodes::memory_alone))]
pub fn each_refusal_has_a_code()
    ensures each { EachCodeIsOfAReason }
    ensures no_other { NoCodeIsOfTwo }
    ensures memory { MemoryAloneRefusesNone }
{}
