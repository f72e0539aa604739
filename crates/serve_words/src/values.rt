ghost use Rattle.std.specs.Option.{ForSome};
ghost use Rattle.std.specs.Prelude.{◌≤◌};

/// The value of each option, where it has one, and where that is a number the number, if it is within its range.
#[derive(Drop)]
pub struct Values<'a> {
    pub listen: Option<&'a str>,
    pub db: Option<&'a str>,
    pub caps: Option<&'a str>,
    pub links: Option<u32>,
    pub workers: Option<u32>,
    pub accept: Option<u32>,
    ghost within_links: { ForSome links (λ n. (1 ≤ n) × (n ≤ 48)) },
    ghost within_workers: { ForSome workers (λ n. (1 ≤ n) × (n ≤ 8)) },
}
