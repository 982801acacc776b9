// Quantified Boolean formulas: what they mean, and what is known of them. Definitions and laws only (specs/).
#![tactic(auto)]
