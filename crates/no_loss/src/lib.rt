// No functions: the theorems that no frame is lost and that the bench never stands still, about the definitions of the layers below.
#![tactic(auto)]
