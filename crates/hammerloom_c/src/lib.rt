// The two entries for a host program in C: include/hammerloom.h declares them.
#![tactic(auto)]

ghost use Rattle.sheet.specs.Fields.{narrow, wide};
ghost use Rattle.hammerloom.specs.Host.{Host};

// Runs a script over a narrow sheet, with two tables of 500 records of its own. It returns 256 times the refusal plus the place, 0 if accepted.
#[unsafe(no_mangle)]
pub extern "C" fn hammerloom_run(sheet: &[u8], script: &[u8], answers: &mut [u8]) -> u32
    ensures { Host (narrow sheet.now) script.now answers.old answers.new result }
{
    hammerloom::hammerloom_run(sheet, script, answers)
}

// The same over a wide sheet. It returns 65,536 times the refusal plus the place.
#[unsafe(no_mangle)]
pub extern "C" fn hammerloom_run_wide(sheet: &[u8], script: &[u8], answers: &mut [u8]) -> u32
    ensures { Host (wide sheet.now) script.now answers.old answers.new result }
{
    hammerloom::hammerloom_run_wide(sheet, script, answers)
}
