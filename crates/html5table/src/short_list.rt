//! A short table: the list of a program that was given no other.
ghost use Rattle.std.specs.Prelude.{◌≡◌, None, Some};
ghost use Rattle.html5table.specs.Listed.{listed};
ghost use Rattle.html5table.specs.Profile.{profile_entries};
ghost use Rattle.markup5ever.specs.NamedReferences.{first_fault};

const PROFILE: &str =
    "amp=26,amp;=26,gt=3E,gt;=3E,lt=3C,lt;=3C,nGt;=226B+20D2,not=AC,not;=AC,notin;=2209,quot=22,quot;=22";

/// The list of a few of the standard's references, which a program reads by that was given no other.
pub fn profile() -> &'static str
    ensures said { listed result.now ≡ Some profile_entries }
    ensures faultless { first_fault profile_entries ≡ None }
{
    PROFILE
}
