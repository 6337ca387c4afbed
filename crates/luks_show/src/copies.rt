ghost use Rattle.std.specs.Prelude.{◌≡◌};
ghost use Rattle.luks_show.specs.Texts.{copies_text};

use luks_reading::Copies;

/// How the copies stand to each other, as the program's lines say it.
pub fn copies_name(copies: Copies) -> &'static str
    ensures { result.now ≡ copies_text copies }
{
    match copies {
        Copies::InStep => "in-step",
        Copies::FirstNewer => "first-newer",
        Copies::SecondNewer => "second-newer",
        Copies::FirstOnly => "first-only",
        Copies::SecondOnly => "second-only",
    }
}
