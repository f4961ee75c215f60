//! Keys of objects and work keys are keys to queue by.
use crate::named::Named;
use object_keys::{Key, WorkKey};
use std::alloc::AllocError;

impl Named for Key {
    ghost use Rattle.spec_api.specs.Keys.{Key as KeyName, key_cmp};
    ghost use Rattle.object_keys.specs.Keys.{key_of};
    ghost use Rattle.spec_client_go.proofs.WorkKeyOrder.{name_total, name_tells};
    ghost use Rattle.object_keys.proofs.KeyOrder.{key_cmp-name_cmp};

    ghost Name = { KeyName };

    ghost order = { key_cmp };

    ghost says = { key_of };

    ghost ordered = { name_total };

    ghost apart = { name_tells };

    ghost alike = { key_cmp-name_cmp };

    fn try_copy(&self) -> Result<Key, AllocError> {
        Key::try_copy(self)
    }
}

impl Named for WorkKey {
    ghost use Rattle.spec_client_go.specs.WorkQueues.{WorkKey as Task, work_key_cmp};
    ghost use Rattle.object_keys.specs.WorkKeys.{work_key_of};
    ghost use Rattle.spec_client_go.proofs.WorkKeyOrder.{work_key_total, work_key_tells};
    ghost use Rattle.object_keys.proofs.WorkKeyOrder.{work_key_cmp-task_cmp};

    ghost Name = { Task };

    ghost order = { work_key_cmp };

    ghost says = { work_key_of };

    ghost ordered = { work_key_total };

    ghost apart = { work_key_tells };

    ghost alike = { work_key_cmp-task_cmp };

    fn try_copy(&self) -> Result<WorkKey, AllocError> {
        WorkKey::try_copy(self)
    }
}
