//! Pictures of many lists of marks, beside those of the first form.

use crate::made::{Dice, Plan};
use crate::same::have_same_places;
use crate::start;
use marble_marks::Mark;
use marble_pictures::{svg_picture, text_picture};
use std::alloc::{AllocError, Global};
use std::test::Fail;

/// How many lists there are.
const LISTS: u64 = 1000;

/// How many lists of few marks there are.
const SPARSE_LISTS: u64 = 40;

/// What a picture is written as.
#[derive(Clone, Copy)]
enum Form {
    Text,
    Svg,
}

impl Form {
    /// The picture of these marks, which are put in the order of their rows.
    fn now(self, alloc: Global, marks: &mut Vec<Mark<'_>>) -> Result<String, AllocError> {
        match self {
            Form::Text => text_picture(alloc, marks),
            Form::Svg => svg_picture(alloc, marks),
        }
    }

    /// The same in its first form.
    fn first(self, alloc: Global, marks: &mut Vec<Mark<'_>>) -> Result<String, AllocError> {
        match self {
            Form::Text => start::text_picture(alloc, marks),
            Form::Svg => start::svg_picture(alloc, marks),
        }
    }

    /// Whether both draw the same picture, and leave the marks in the same order.
    fn is_same(
        self,
        alloc: Global,
        ones: &mut Vec<Mark<'_>>,
        others: &mut Vec<Mark<'_>>,
    ) -> Result<bool, AllocError> {
        let one = self.now(alloc, ones)?;
        let other = self.first(alloc, others)?;
        Ok(one.as_str() == other.as_str() && have_same_places(ones, others))
    }

    /// Whether both draw these marks as the same picture.
    fn is_same_of(self, alloc: Global, marks: &[Mark<'_>]) -> Result<bool, AllocError> {
        let mut ones = Vec::from_slice(alloc, marks)?;
        let mut others = Vec::from_slice(alloc, marks)?;
        self.is_same(alloc, &mut ones, &mut others)
    }

    /// The first of so many lists of this kind of which both don't draw the same picture.
    fn first_other(self, alloc: Global, plan: Plan, count: u64) -> Result<Option<u64>, AllocError> {
        for seed in 0..count {
            let marks = plan.marks(alloc, &mut Dice::new(seed))?;
            if !self.is_same_of(alloc, &marks)? {
                return Ok(Some(seed));
            }
        }
        Ok(None)
    }
}

/// A text and an SVG are what they were.
#[test]
fn pictures_are_what_they_were(rt: HostRuntime) -> Result<(), Fail> {
    for form in [Form::Text, Form::Svg] {
        let other = form.first_other(rt.alloc(), Plan::Any, LISTS)?;
        assert_eq!(rt; other, None);
    }
    Ok(())
}

/// A text and an SVG of few marks, far apart, are what they were.
#[test]
fn sparse_pictures_are_what_they_were(rt: HostRuntime) -> Result<(), Fail> {
    for form in [Form::Text, Form::Svg] {
        let other = form.first_other(rt.alloc(), Plan::Sparse, SPARSE_LISTS)?;
        assert_eq!(rt; other, None);
    }
    Ok(())
}
