ghost use Rattle.std.specs.Prelude.{◌≡◌, ◌<◌};
ghost use Rattle.patterns.specs.Forms.{suits};

use crate::form::Form;
use rules::condition::Condition;

// How many places with which condition are asked for.
#[derive(Clone, Copy)]
pub struct Quota {
    pub form: Form,
    pub condition: Condition,
    pub times: u16,
    ghost narrow: { times < 65536 },
}

impl Quota {
    // Whether so many places are as many as asked.
    pub fn is_met(&self, count: u32) -> bool
        ensures { result ≡ suits self.now.form self.now.times count }
    {
        let times = u32::from(self.times);
        // one comparison for each form: by an `Ordering` it would be one call for each, and no plainer
        match self.form {
            Form::Exactly => count == times,
            Form::AtLeast => count >= times,
            Form::AtMost => count <= times,
        }
    }
}
