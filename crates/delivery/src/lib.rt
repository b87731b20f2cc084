// What is delivered beyond the contracts, as one promise: specs/Delivery has the page.
#![tactic(auto)]

ghost use Rattle.delivery.specs.Delivery.{Delivered};

pub fn delivered()
    ensures { Delivered }
{}
