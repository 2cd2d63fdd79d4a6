//! A story as a listing in text, and which texts are listings.
#![tactic(auto)]

mod forms;
mod fronts;
mod mark;
mod place;
mod reading;
mod rest;
mod texts;
mod writing;

ghost use Rattle.std.specs.Prelude.{◌≡◌, List, ℕ};
ghost use Rattle.z_list.specs.Listing.{Line};
ghost use Rattle.z_list.specs.Reads.{IsListing};
ghost use Rattle.z_list.specs.inside.Lines.{Where};
ghost use Rattle.z_list.specs.inside.Read.{Stands, Decides};

pub use mark::Mark;
pub use reading::{ListFault, read_listing};
pub use writing::listing;

/// No text has two stories.
pub fn listings_have_one_story()
    ensures { (text one other : List ℕ) → IsListing text one → IsListing text other → one ≡ other }
{}

/// Lines that were read make a listing where they are whole; where no line goes on behind them, the next one is the first bad line.
pub fn lines_decide()
    ensures { (count : ℕ) (text : List ℕ) (ls : List Line) (w : Where) (at left : ℕ) (rest : List ℕ) →
        Stands count text ls w at left rest → Decides count text ls w at left rest }
{}
