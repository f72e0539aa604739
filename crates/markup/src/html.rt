ghost use Rattle.std.specs.Prelude.{◌≡◌, All};
ghost use Rattle.std.specs.Str.{IsUtf8};
ghost use Rattle.markup.specs.Reader.{IsAllowed, tags};
ghost use Rattle.markup.specs.Safe.{IsSafeHtml};

use std::marker::Model;

/// Markup that a page may hold: UTF-8, with no elements but those of the grammar of safe markup, nested and closed. Elements nest at
/// most 64 deep, and a link to a page may stand in the innermost. It stands in a page's text; `escape`'s may stand in an attribute in double
/// quotes too. Contracts see its bytes.
#[derive(Drop)]
pub struct SafeHtml {
    bytes: Vec<u8>,
}

impl Model for SafeHtml {
    ghost use Rattle.std.specs.Prelude.{ℕ, List};

    ghost Value = { List ℕ };

    ghost use Rattle.markup.specs.Safe.{IsSafeHtml};

    ghost view = { λ html. html.bytes.items };

    ghost invariant = { λ html. IsSafeHtml html.bytes.items };
}

impl SafeHtml {
    /// Markup of safe bytes.
    pub(crate) fn of(bytes: Vec<u8>) -> SafeHtml
        requires { IsSafeHtml bytes.items }
        ensures { result ≡ bytes.items }
    {
        SafeHtml { bytes }
    }

    /// Its bytes.
    pub fn bytes(&self) -> &[u8]
        ensures all { result.now ≡ self.now }
        ensures safe { IsSafeHtml self.now }
        ensures utf8 { IsUtf8 self.now }
        // What stands from each < to the next >, whoever reads it.
        ensures tags { All IsAllowed (tags self.now) }
    {
        self.bytes.as_slice()
    }
}
