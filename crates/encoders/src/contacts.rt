pub mod coding;
mod term;

ghost use Rattle.std.specs.Prelude.{◌≡◌, ◌≤◌, MatchResult};
ghost use Rattle.std.specs.Result.{result_err};
ghost use Rattle.rules.specs.declared.refusal.SettingRefusal.TheVariants.{Range};
ghost use Rattle.encoders.specs.Contact.{contacts_refused, contact_fair};
ghost use Rattle.encoders.specs.Holding.{no_terms, with_term, term_refused};

use crate::conditions::Conditions;
use crate::contacts::term::ContactTerm;
use crate::width::Width;
use rules::condition::Condition;
use rules::refusal::SettingRefusal;

// Samples of one byte, in which bit k is contact k.
#[derive(Clone, Copy)]
pub struct Contacts {
    contacts: Width,
    conditions: Conditions<ContactTerm>,
}

impl Contacts {
    ghost use Rattle.encoders.specs.Held.{contacts_of, contact_terms};
    ghost use Rattle.encoders.specs.Settings.{HasContacts};

    // Eight contacts, and no terms.
    pub fn new() -> Contacts
        ensures { HasContacts result 8 no_terms }
    {
        Contacts {
            contacts: Width::new(8),
            conditions: Conditions::none(),
        }
    }

    // Sets the number of contacts, 1 to 8, and removes every term: terms speak of the contacts that were.
    pub fn set_contacts(&mut self, contacts: u8) -> Result<(), SettingRefusal>
        ensures result { result_err result ≡ contacts_refused contacts }
        ensures after { MatchResult result (λ _. HasContacts self.new contacts no_terms) (λ _. self.new ≡ self.old) }
    {
        if !(1..=8).contains(&contacts) {
            return Err(SettingRefusal::Range);
        }
        self.contacts = Width::new(contacts);
        self.conditions = Conditions::none();
        Ok(())
    }

    // Gives a condition one more term, by its parts: a term that does not fit is refused, and is no value.
    pub fn add_term(&mut self, condition: u8, care: u8, want: u8) -> Result<(), SettingRefusal>
        ensures result { result_err result ≡ term_refused (contact_fair (contacts_of self.old) care want) condition (contact_terms self.old) }
        ensures after { MatchResult result (λ _. HasContacts self.new (contacts_of self.old) (with_term condition (care, want) (contact_terms self.old))) (λ _. self.new ≡ self.old) }
    {
        let condition = Condition::new(condition)?;
        if !self.contacts.covers(care) {
            return Err(SettingRefusal::Term);
        }
        let term = ContactTerm::new(care, want)?;
        self.conditions.add(condition, term)
    }
}
