// Worked examples, which compute from the definitions.

ghost use Rattle.protocol.specs.Examples.{AsksAre, DeathIs, HandedIn, HoldersHold, PlansAre, ReleasesTell, StoresKeep};

/// Examples of stores, holders, plans, releases, asks, what is handed in, and a run with a death.
pub fn examples()
    ensures stores { StoresKeep }
    ensures holders { HoldersHold }
    ensures plans { PlansAre }
    ensures releases { ReleasesTell }
    ensures asks { AsksAre }
    ensures handed { HandedIn }
    ensures death { DeathIs }
{}
