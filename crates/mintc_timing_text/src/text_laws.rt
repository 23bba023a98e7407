//! Laws of the texts of schedules and tables.
ghost use Rattle.mintc_timing_text.specs.TextLaws.{HaveOneSchedule, HaveNoScheduleFault, HaveOneScheduleFault};
ghost use Rattle.mintc_timing_text.specs.TextLaws.{HaveOneDesign, HaveNoTableFault, HaveOneTableFault};
ghost use Rattle.mintc_timing_text.specs.TextLaws.{HaveOneScheduleText, HaveOneTableText};
ghost use Rattle.mintc_timing_text.specs.TextLaws.{HaveDesignOrRefusal, HaveScheduleOrFault};
ghost use Rattle.mintc_timing_text.specs.TextLaws.{ScheduleTextsAreTheirLines, TableTextsAreTheirLines};

/// A text is that of at most one schedule; where it is that of one, no line is at fault; and at most one line is.
#[tactic(auto, using(crate::proofs::SharedScheduleLaws::schedule_texts))]
pub fn schedule_texts_are_plain()
    ensures value { HaveOneSchedule }
    ensures no_fault { HaveNoScheduleFault }
    ensures fault { HaveOneScheduleFault }
{}

/// A text is that of at most one design; where it is that of one, no line is at fault; and at most one line is.
#[tactic(auto, using(crate::proofs::TablePlain::table_texts))]
pub fn table_texts_are_plain()
    ensures value { HaveOneDesign }
    ensures no_fault { HaveNoTableFault }
    ensures fault { HaveOneTableFault }
{}

/// A schedule has one text, and a design one with a given first line, which is its version.
#[tactic(auto, using(crate::proofs::TableSpelling::one_texts))]
pub fn texts_are_canonical()
    ensures schedule { HaveOneScheduleText }
    ensures table { HaveOneTableText }
{}

/// Each text is a schedule's, or has a first line out of form.
pub fn texts_have_schedules_or_faults()
    ensures { HaveScheduleOrFault }
{}

/// Each text is that of a design within the limits, or is refused.
pub fn texts_have_designs_or_refusals()
    ensures { HaveDesignOrRefusal }
{}

/// A text is that of a schedule exactly where it has the schedule's lines, and the schedule's numbers are in range.
pub fn schedule_texts_are_their_lines()
    ensures { ScheduleTextsAreTheirLines }
{}

/// A text is that of a design exactly where it has the lines of the design's table in some version.
pub fn table_texts_are_their_lines()
    ensures { TableTextsAreTheirLines }
{}
