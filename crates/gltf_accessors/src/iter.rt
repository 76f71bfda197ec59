//! Elements one after the other.

ghost use Rattle.std.specs.Prelude.{◌≡◌};
ghost use Rattle.std.specs.Iterator.{YieldsFirstRef, item_count};
ghost use Rattle.gltf_accessors.specs.Elements.{elements_from};
ghost use Rattle.gltf_accessors.specs.Iter.{elements_left};

use crate::elements::Elements;

impl<'a> Elements<'a> {
    /// Goes over the elements in order.
    pub fn iter(&self) -> ElementsIter<'a>
        ensures { elements_left result
            ≡ elements_from self.now.bytes.now self.now.span 0 self.now.span.count }
    {
        ElementsIter {
            elements: *self,
            next: 0,
        }
    }
}

/// Elements in order.
#[derive(Clone, Copy, Debug)]
pub struct ElementsIter<'a> {
    elements: Elements<'a>,
    next: u64,
}

impl<'a> Iterator for ElementsIter<'a> {
    type Item = &'a [u8];

    ghost next_gives = { YieldsFirstRef elements_left };

    ghost remaining = { item_count elements_left };

    #[inline(always)]
    fn next(&mut self) -> Option<&'a [u8]> {
        if self.next < self.elements.span.count {
            let element = self.elements.get(self.next);
            self.next += 1;
            Some(element)
        } else {
            None
        }
    }
}
