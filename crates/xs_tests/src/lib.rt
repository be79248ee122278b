//! Tables of worked cases, tried through the public functions of the libraries. It has no code but
//! tests: they stand apart since a library that has none is proved once, and one with tests twice.
#![tactic(auto)]

#[cfg(test)]
mod glue_cases;
#[cfg(test)]
mod module_cases;
#[cfg(test)]
mod nesting_tables;
#[cfg(test)]
mod param_cases;
#[cfg(test)]
mod param_tables;
#[cfg(test)]
mod script_cases;
#[cfg(test)]
mod section_cases;
#[cfg(test)]
mod syntax_cases;
#[cfg(test)]
mod syntax_tables;
#[cfg(test)]
mod table_rows;
#[cfg(test)]
mod template_cases;
#[cfg(test)]
mod token_cases;
#[cfg(test)]
mod token_tables;
#[cfg(test)]
mod type_cases;
#[cfg(test)]
mod type_tables;
#[cfg(test)]
mod typemap_cases;
#[cfg(test)]
mod value_cases;
#[cfg(test)]
mod value_tables;
