//! Laws of what the model defines, of texts, layouts, segments and entries, each proved once for the crates above.
#![tactic(auto)]
