// Worked examples, which compute from the definitions.

ghost use Rattle.lease_discipline.specs.Examples.{ClaimsAreJudged, GivesBegin, SlotsAreJudged, TicksOweNothing};

/// Events that pay what they owe, one that owes nothing, and altered ones in which a reply is missing, which the definition of what is owed refuses.
pub fn examples()
    ensures gives { GivesBegin }
    ensures ticks { TicksOweNothing }
    ensures claims { ClaimsAreJudged }
    ensures slots { SlotsAreJudged }
{}
