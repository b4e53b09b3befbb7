// Worked examples, which compute from the definitions.

ghost use Rattle.owed_laws.specs.Examples.{BirthsAreJudged, EndsAreJudged, FetchesAreJudged, ReportsAreJudged, RequestsAreJudged};

/// A birth, an end, a Fetch, a request and a report that pay what they owe; and altered ones, in which the ask, the acceptance, the acknowledgement, the
/// copy or the report is missing, or another content is told, which the definition of what is owed refuses.
pub fn examples()
    ensures births { BirthsAreJudged }
    ensures ends { EndsAreJudged }
    ensures fetches { FetchesAreJudged }
    ensures requests { RequestsAreJudged }
    ensures reports { ReportsAreJudged }
{}
