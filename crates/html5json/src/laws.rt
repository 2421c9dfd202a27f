//! Each line is JSON, and is read back.
ghost use Rattle.std.specs.Prelude.{ℕ, ◌<◌, ◌^◌, List, Option};
ghost use Rattle.html5ever_interface.specs.Token.{Told};
ghost use Rattle.html5check.specs.Located.{Located};
ghost use Rattle.html5json.specs.Findings.{IsCounted, json_of_finding, result_json};
ghost use Rattle.html5json.specs.Links.{json_of_link};
ghost use Rattle.html5json.specs.Reading.{ReadsBack};
ghost use Rattle.html5json.specs.Tokens.{json_of_token};

/// What is printed for a token, whatever it holds, is read back as that token.
pub fn tokens_read_back()
    ensures { (file : Option (List ℕ)) (told : Told) (line : ℕ) → line < 2 ^ 64 → ReadsBack (json_of_token file told line) }
{}

/// What is printed for a link is read back as that link.
pub fn links_read_back()
    ensures { (file : Option (List ℕ)) (line : ℕ) (link : List ℕ) → line < 2 ^ 64 → ReadsBack (json_of_link file line link) }
{}

/// What is printed for something found is read back as that, on a line of its own or as a result in a log.
pub fn findings_read_back()
    ensures line { (file : List ℕ) (located : Located) → IsCounted located → ReadsBack (json_of_finding file located) }
    ensures result { (file : List ℕ) (located : Located) → IsCounted located → ReadsBack (result_json file located) }
{}
