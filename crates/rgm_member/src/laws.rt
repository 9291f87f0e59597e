ghost use Rattle.rgm_member.specs.Laws.{CallOnce, DueIsCalled, DueOnce, OthersStay, OutcomesStay, RestartsAreFew, SuccessAlone};

/// An order number of a membership calls once. An order of the same number that comes later gets
/// the outcome of the first, whatever orders came between.
pub fn orders_call_once()
    ensures once { CallOnce }
    ensures stay { OutcomesStay }
{}

/// A call that is due of an order is made where the order is carried out. After that none is due of an
/// order of this number.
pub fn due_calls_are_made()
    ensures called { DueIsCalled }
    ensures once { DueOnce }
{}

/// Flags change by success alone, and those of the order's resource alone.
pub fn flags_change_by_success()
    ensures success { SuccessAlone }
    ensures others { OthersStay }
{}

/// A resource never has more than 1,000 restarts kept.
pub fn restarts_are_few()
    ensures { RestartsAreFew }
{}
