ghost use Rattle.wc_diag_warnings.specs.Laws.{EachDeclaredWarningIsSo, EachEventWarningIsSo, EdgesAreThere};

/// A run comes to an event exactly if a path leads to it.
pub fn edges_are_there()
    ensures { EdgesAreThere }
{}

/// A declared name has a warning exactly if what the warning says of it is so.
pub fn each_declared_warning_is_so()
    ensures { EachDeclaredWarningIsSo }
{}

/// An event of a body has a warning exactly if what the warning says of it is so.
pub fn each_event_warning_is_so()
    ensures { EachEventWarningIsSo }
{}
