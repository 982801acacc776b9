// What a run of a script over a sheet is, and what follows of every call that keeps it: the theorems of the certificate. Definitions and laws only (specs/).
#![tactic(auto)]
