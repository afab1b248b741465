// Settings without ceilings.
ghost use Rattle.std.specs.Prelude.{◌≡◌};
ghost use Rattle.reduction.specs.Reduction.{no_ceilings};

use reduction::Settings;

// a budget, and for each rule the largest number of 32 bits, which no budget of 32 bits lets it go beyond
pub fn no_ceilings(budget: u32) -> Settings
    ensures { result ≡ no_ceilings budget }
{
    Settings {
        budget,
        ceilings: [u32::MAX; 10],
    }
}
