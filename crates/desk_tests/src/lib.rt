//! Pages over the desks of `page_draw`, from the outside.
#![tactic(auto)]

#[cfg(test)]
mod tests;
