ghost use Rattle.std.specs.Prelude.{◌≡◌, ◌<◌};
ghost use Rattle.html_pages.specs.Dates.{date_of, NO_DATE};

use httpdate::HttpDate;

/// The date of a moment.
#[tactic(auto, using(crate::proofs::Counting::date_text_of))]
pub fn date_text(moment: u64) -> [u8; 29]
    requires { moment < NO_DATE }
    ensures { result ≡ date_of moment }
{
    HttpDate::from_unix_secs(moment).unwrap().to_bytes()
}
