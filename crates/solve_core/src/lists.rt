//! The lists of prices with which leaves begin.

ghost use Rattle.std.specs.Prelude.{◌≡◌, IfSome};
ghost use Rattle.program_model.specs.Points.{program_of};
ghost use Rattle.safe_bound.specs.Prices.{ArePrices};
ghost use Rattle.solve_core.specs.inner.Running.{AreLists};

use ct_base::Net;
use listed::Memory;
use queue_prices::Tolls;
use std::alloc::Global;

/// The seed, and the lists that were worked on, each a price of every row, with the tolls of the boxes that they were worked on in.
#[derive(Debug, Drop)]
pub(crate) struct Lists {
    pub(crate) seed: Vec<i64>,
    pub(crate) worked: Vec<Vec<i64>>,
    pub(crate) tolls: Vec<Tolls>,
}

impl Lists {
    /// The list with a number, where there is one.
    pub(crate) fn list(&self, net: &Net, number: Option<u32>) -> Option<&[i64]>
        requires { AreLists net.now self.now }
        ensures { IfSome result (λ prices. ArePrices (program_of net.now).rows prices.now) }
    {
        match number {
            Some(number) => self.at(net, number),
            None => None,
        }
    }

    /// The list with a number, where there is one.
    fn at(&self, net: &Net, number: u32) -> Option<&[i64]>
        requires { AreLists net.now self.now }
        ensures { IfSome result (λ prices. ArePrices (program_of net.now).rows prices.now) }
    {
        match self.worked.get(number as usize) {
            Some(prices) => Some(prices.as_slice()),
            None => None,
        }
    }

    /// The tolls that belong to the list with a number, where there is one.
    pub(crate) fn tolls(&self, number: Option<u32>) -> Option<&Tolls> {
        match number {
            Some(number) => self.tolls.get(number as usize),
            None => None,
        }
    }

    /// Keeps a copy of lawful prices with their tolls, and answers its number.
    pub(crate) fn keep(
        &mut self,
        alloc: Global,
        net: &Net,
        prices: &[i64],
        tolls: Tolls,
    ) -> Result<u32, Memory>
        requires lists { AreLists net.now self.old }
        requires lawful { ArePrices (program_of net.now).rows prices.now }
        ensures { AreLists net.now self.new }
    {
        let number = self.worked.len().min(u32::MAX as usize) as u32;
        self.worked.push(prices.to_vec(alloc)?)?;
        self.tolls.push(tolls)?;
        Ok(number)
    }
}
