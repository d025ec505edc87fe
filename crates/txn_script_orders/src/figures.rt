//! The printed lines of figures.

ghost use Rattle.std.specs.Prelude.{Some};
ghost use Rattle.txn_script_orders.specs.Figures.{figures_text, heading_text};

use std::fmt;

/// The figures of a question.
#[derive(Clone, Copy, Debug)]
pub(crate) struct Figures {
    pub(crate) states: usize,
    pub(crate) orders: u128,
    pub(crate) outcomes: usize,
    /// How many outcomes there are with their mirror images.
    pub(crate) images: u64,
}

impl fmt::Display for Figures {
    ghost output = { λ it. Some (figures_text it.states it.orders it.outcomes it.images) };

    fn fmt<W: fmt::Write>(&self, f: &mut fmt::Formatter<W>) -> fmt::Result {
        let Figures {
            states,
            orders,
            outcomes,
            images,
        } = *self;
        write!(
            f,
            "states {states}\norders {orders}\noutcomes {outcomes}, with mirror images {images}\nrules kept by {outcomes} outcomes"
        )
    }
}

/// The first line of an outcome.
#[derive(Clone, Copy, Debug)]
pub(crate) struct Heading {
    /// Its number, from 1, and how many outcomes there are.
    pub(crate) number: u64,
    pub(crate) of: usize,
    /// In how many orders it is reached, with its mirror images, and how many of these it has.
    pub(crate) orders: u128,
    pub(crate) images: u64,
}

impl fmt::Display for Heading {
    ghost output = { λ it. Some (heading_text it.number it.of it.orders it.images) };

    fn fmt<W: fmt::Write>(&self, f: &mut fmt::Formatter<W>) -> fmt::Result {
        let Heading {
            number,
            of,
            orders,
            images,
        } = *self;
        write!(
            f,
            "outcome {number} of {of}, orders {orders}, mirror images {images}"
        )
    }
}
