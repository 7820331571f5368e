// A configuration that the check has accepted.
ghost use Rattle.std.specs.Prelude.{◌≡◌, IfOk, OnOk, IfErr, Ok, Err};
ghost use Rattle.minuska.specs.Bridge.Place.{Accepted};
ghost use Rattle.minuska.specs.Computed.Outcome.{configuration_check};
ghost use Rattle.term.specs.Configuration.{Accepted-prop};

use minuska::Refusal;

// The words of a configuration.
#[derive(Clone, Copy)]
pub struct Configuration<'a> {
    pub words: &'a [i64],
    pub ghost accepted: { Accepted words.now } by { Accepted-prop words.now },
}

impl<'a> Configuration<'a> {
    // Checks that the words are exactly one configuration.
    pub fn check(words: &'a [i64]) -> Result<Self, Refusal>
        ensures configuration { IfOk result (λ c. c.words.now ≡ words.now) }
        ensures good { OnOk result (configuration_check words.now ≡ Ok tt) }
        ensures bad { IfErr result (λ r. configuration_check words.now ≡ Err r) }
    {
        crate::check_configuration(words)?;
        Ok(Configuration { words })
    }
}
