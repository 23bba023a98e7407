//! The names in a Liberty text.
use crate::presort_names::Names;
use mintc_liberty_tokens::Scanner;

impl<'a> Names for Scanner<'a> {
    fn name(&self, place: u32) -> &[u8] {
        match self.from_place(place as usize).name() {
            Some(name) => name,
            None => &[],
        }
    }
}
