// A page: octets that are collected before any of them is written. What does not fit leaves what is on the page as it is and marks the page
// overfull; nothing more goes on it then.
#![tactic(auto)]

ghost use Rattle.std.specs.Prelude.{◌≡◌, ◌↔◌, IsTrue, IsNone, IfSome};
ghost use Rattle.page.specs.Page.{blank_page, put_on, NumberPut};

use itoa::Buffer;
use std::marker::Model;

// The octets on a page are its first, as many as are used; those behind them are 0.
#[derive(Clone, Copy)]
pub struct Page {
    octets: [u8; 8192],
    used: usize,
    is_overfull: bool,
}

// A contract sees what is on a page, and whether it is overfull. That gives the fields back, since 0 stands behind what is on it: a page
// may be copied.
impl Model for Page {
    ghost use Rattle.std.specs.Prelude.{◌≤◌, ◌-◌, ◌++◌, length, take, replicate};
    ghost use Rattle.std.proofs.Common.{ap, sym, subst, ◌∙◌, take-append-drop, length-take-le};
    ghost use Rattle.page.specs.Page.{Content, IsFilled};

    ghost Value = { Content };

    ghost view = { λ page. record { octets = take page.used page.octets; is_overfull = page.is_overfull } };

    ghost invariant = { λ page. IsFilled page.used page.octets };

    ghost inverse = { λ content. record {
      octets = content.octets ++ replicate (8192 - length content.octets) 0;
      used = length content.octets;
      is_overfull = content.is_overfull;
    } };

    ghost inverse_ok = { λ page filled i.
        let used_again = length-take-le page.used page.octets (subst (λ size. page.used ≤ size) (sym filled.1) filled.0) in record {
          octets = (ap (λ used. take page.used page.octets ++ replicate (8192 - used) 0) used_again
              ∙ ap (λ behind. take page.used page.octets ++ behind) (sym filled.2) ∙ take-append-drop page.used page.octets) i;
          used = used_again i;
          is_overfull = page.is_overfull;
        } };
}

impl Page {
    // A page with nothing on it.
    pub fn blank() -> Page
        ensures { result ≡ blank_page }
    {
        Page {
            octets: [0u8; 8192],
            used: 0,
            is_overfull: false,
        }
    }

    // Puts words on the page behind what is on it.
    pub fn put(&mut self, words: &[u8])
        ensures { self.new ≡ put_on self.old words.now }
    {
        if self.is_overfull || self.octets.len() - self.used < words.len() {
            self.is_overfull = true;
            return;
        }
        let end = self.used + words.len();
        self.octets[self.used..end].copy_from_slice(words);
        self.used = end;
    }

    // Puts a number on the page, in decimal. (By itoa: `write!` would answer a Result for what the page itself remembers.)
    #[tactic(auto, using(crate::proofs::Digits::number_put))]
    pub fn number(&mut self, n: u64)
        ensures { NumberPut self.old n self.new }
    {
        let mut digits = Buffer::new();
        self.put(digits.format(n).as_bytes());
    }

    // All that is on the page; nothing where it is overfull.
    pub fn written(&self) -> Option<&[u8]>
        ensures all { IfSome result (λ octets. octets.now ≡ self.now.octets) }
        ensures overfull { IsNone result ↔ IsTrue self.now.is_overfull }
    {
        if self.is_overfull {
            return None;
        }
        Some(&self.octets[..self.used])
    }
}
