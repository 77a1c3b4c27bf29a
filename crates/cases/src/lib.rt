// Document 01's cases marked P, in one table under one theorem. No functions.
#![tactic(auto)]
