// The conditions of the story, and its contacts.
ghost use Rattle.std.specs.Prelude.{MatchResult};
ghost use Rattle.encoders.specs.Settings.{HasContacts};
ghost use Rattle.story.specs.Contacted.{story_terms};

use encoders::contacts::Contacts;
use rules::refusal::SettingRefusal;

// Conditions have only numbers in the library: each program names its own.

// D, the dryer is driven
pub const DRIVEN: u8 = 0;
// B, the sheet breaks
pub const BREAK: u8 = 1;
// T, the tail is threaded
pub const THREADED: u8 = 2;
// S, the section is stopped
pub const STOPPED: u8 = 3;

// Four contacts, and condition k holds where contact k is closed.
pub fn contacts() -> Result<Contacts, SettingRefusal>
    ensures { MatchResult result (λ x. HasContacts x 4 story_terms) (λ e. ⊥) }
{
    let mut contacts = Contacts::new();
    contacts.set_contacts(4)?;
    contacts.add_term(DRIVEN, 1, 1)?;
    contacts.add_term(BREAK, 2, 2)?;
    contacts.add_term(THREADED, 4, 4)?;
    contacts.add_term(STOPPED, 8, 8)?;
    Ok(contacts)
}
