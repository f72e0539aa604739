ghost use Rattle.std.specs.Prelude.{◌≤◌, length};

use frozen::Frozen;
use site_text::read_site;
use std::alloc::Global;
use std::sync::Arc;
use std::test::Fail;

/// The site of a text.
pub fn site(alloc: Global, text: &[u8]) -> Result<Arc<Frozen>, Fail>
    requires { length text.now ≤ 1000 }
{
    match read_site(alloc, text) {
        Ok(frozen) => Ok(frozen),
        Err(_) => Err("no site".into()),
    }
}

/// A crowd, from c on, certifies one another; a certifies b, and b is the one bridge to the crowd.
pub fn crowd(alloc: Global) -> Result<Arc<Frozen>, Fail> {
    site(
        alloc,
        b"caps 10 4 2 1\naccount a\naccount b\naccount c\naccount d\naccount e\nseed a\ncert a b Master\ncert b c Master\n\
          cert c d Master\ncert c e Master\ncert d c Master\ncert d e Master\ncert e c Master\ncert e d Master\n",
    )
}
