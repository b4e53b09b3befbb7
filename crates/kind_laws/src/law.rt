// In a legal log of a checked script values are of their kinds, and only main prints.

ghost use Rattle.kind_laws.specs.Law.{LegalLogsKeepKinds};
ghost use Rattle.kind_laws.specs.Mains.{LegalLogsKeepMainApart};

/// In a legal log of a checked script each birth makes an object of some kind; and with the content of the object that it needs an
/// attempt has answers of the kinds that it asks for.
pub fn legal_logs_keep_kinds()
    ensures { LegalLogsKeepKinds }
{}

/// In a legal log of a script in which no function calls main and none but main prints: no birth is a task of main but main's own,
/// and an attempt of any other object prints nothing.
pub fn legal_logs_keep_main_apart()
    ensures { LegalLogsKeepMainApart }
{}
