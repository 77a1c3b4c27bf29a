// The ground under every layer: definitions and laws about tests, lists and bits that know nothing of the product. No functions.
#![tactic(auto)]
