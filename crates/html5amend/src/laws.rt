//! What holds of all pages that are amended.
ghost use Rattle.std.specs.Prelude.{◌≡◌, ℕ, List, [], encode_utf8_all, true};
ghost use Rattle.std.specs.List.{concat};
ghost use Rattle.html5amend.specs.Amending.{Amends, amending};
ghost use Rattle.html5amend.specs.Nothing.{ChangesNothing};
ghost use Rattle.html5reading.specs.Start.{Rules, Start, nothing_open};
ghost use Rattle.html5splice.specs.Cuts.{cuts};
ghost use Rattle.html5splice.specs.Edits.{parts};

/// Where a handler changes nothing, a text is written as it is.
pub fn what_is_not_amended_stays()
    ensures { (amends : Amends) (rules : Rules) (K : Start) (text : List ℕ) → nothing_open K.opened ≡ true → ChangesNothing amends
        → concat (parts (amending amends) [] (cuts rules K text)) ≡ encode_utf8_all text }
{}
