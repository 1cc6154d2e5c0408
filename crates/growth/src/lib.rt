// What a feed takes and refuses, and what is proved of it: the rows that its commands feed, its names and the tree it makes.
#![tactic(auto)]

ghost use Rattle.std.specs.Prelude.{◌≡◌};
ghost use Rattle.growth.specs.Faults.{code_of};
ghost use Rattle.growth.specs.Claims.{ThenDue, CommandsHold, SealedShows, FeedsShow, NamesStand};

pub mod command;
pub mod fault;

use fault::Fault;

impl Fault {
    // The number by which a refusal is known. Its contract also has the laws of feeds: what stands after granted commands,
    // and that the tree of a sealed feed shows exactly the nodes fed.
    pub fn code(self) -> u8
        ensures number { result ≡ code_of self }
        ensures due { ThenDue }
        ensures held { CommandsHold }
        ensures shown { SealedShows }
        ensures feeds { FeedsShow }
        ensures names { NamesStand }
    {
        laws_stand();
        self as u8
    }
}

// Holds the laws of feeds.
fn laws_stand()
    ensures due { ThenDue }
    ensures held { CommandsHold }
    ensures shown { SealedShows }
    ensures feeds { FeedsShow }
    ensures names { NamesStand }
{}
